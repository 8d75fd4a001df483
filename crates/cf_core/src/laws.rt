//! The laws of the processor: what holds of every run, whatever the order of its moves. Each is the contract of a function
//! that does nothing; docs/PROMISES.md says each in plain words.

ghost use Rattle.std.specs.Prelude.{◌≡◌, ◌≢◌, ◌≤◌, ◌<◌, ◌^◌, ◌*◌, ◌+◌, ◌⊎◌, ℕ, suc, List, ◌∷◌, All, Some, None, true, false, length};
ghost use Rattle.rv_inst.specs.declared.isa.Isa.{Isa};
ghost use Rattle.rv_machine.specs.Machine.{Machine as Sequential};
ghost use Rattle.rv_machine.specs.Outcome.{Next};
ghost use Rattle.rv_machine.specs.Step.{step};
ghost use Rattle.rv_machine.specs.declared.outcome.Retired.{Retired};
ghost use Rattle.cf_layout.specs.Layout.{Plan};
ghost use Rattle.cf_layout.specs.Accepted.{IsAccepted};
ghost use Rattle.cf_bind.specs.declared.moves.Move.{Move};
ghost use Rattle.cf_bind.specs.declared.moves.Move.TheVariants.{Serve};
ghost use Rattle.cf_semantics.specs.moves.Bars.{bar};
ghost use Rattle.cf_semantics.specs.claims.Determined.{Drains, EndsAs, EndAlike, KeepsRegisters, Rests};
ghost use Rattle.cf_semantics.specs.state.Drained.{is_drained, IsStuck};
ghost use Rattle.cf_semantics.specs.moves.Events.{Shows};
ghost use Rattle.cf_semantics.specs.claims.OnPath.{KeepsOrActsOnPath};
ghost use Rattle.cf_semantics.specs.moves.Kept.{kept, taken_back};
ghost use Rattle.cf_semantics.specs.claims.Laws.{ComputesAsFinished, AccessesAsLaunched, ServesAndPasses, ReadsAsIssued};
ghost use Rattle.cf_semantics.specs.runs.Lines.{line_read, lines};
ghost use Rattle.cf_semantics.specs.moves.Moves.{next};
ghost use Rattle.cf_semantics.specs.claims.Refines.{IsPrefix, Refines};
ghost use Rattle.cf_semantics.specs.runs.Runs.{IsReached, IsRun, run, start};
ghost use Rattle.cf_semantics.specs.moves.Sites.{AreIndependent, IsLocal};
ghost use Rattle.cf_semantics.specs.claims.SoundAfter.{IsSoundAfter};
ghost use Rattle.cf_semantics.specs.state.State.{Moment};
ghost use Rattle.cf_semantics.specs.claims.Stutters.{Stutters};
ghost use Rattle.cf_semantics.specs.claims.Weight.{counts, is_issue, issues, moves_per_issue, weight};
ghost use Rattle.cf_core.specs.Undo.{all_taken_back, kept_along};

/// What a unit computes is what the sequential machine computes.
pub fn l1()
    ensures { ComputesAsFinished }
{}

/// A load or a store does to memory what the sequential machine does.
pub fn l2()
    ensures { AccessesAsLaunched }
{}

/// What needs the whole machine is answered as the sequential machine answers it, and what needs no unit is issued as it
/// passes there.
pub fn l3()
    ensures { ServesAndPasses }
{}

/// An instruction is issued from the code that the sequential machine reads, and its step changes no register but the
/// destination.
pub fn l4()
    ensures { ReadsAsIssued }
{}

/// Every moment of a run is sound over the sequential machine, as long as the program has not ended.
pub fn t4_1()
    ensures { (plan : Plan) (x : Sequential) (moves : List Move) → IsAccepted plan → length x.hart.regs ≡ 32 →
        IsRun plan (start plan x) moves → (run plan (start plan x) moves).state.ending ≡ None →
        IsSoundAfter plan x (run plan (start plan x) moves) }
{}

/// What is seen of a run is what the sequential machine does: retired instructions, registers and ending at each
/// moment; the output, at most one call ahead; and the memory, ahead by the accesses that have passed the port. Neither
/// is ahead if the program has ended or nothing is in the processor.
pub fn t4_2()
    ensures { (plan : Plan) (x : Sequential) (moves : List Move) → IsAccepted plan → length x.hart.regs ≡ 32 →
        IsRun plan (start plan x) moves →
        Refines plan x (lines plan (start plan x) moves) (run plan (start plan x) moves) }
{}

/// An instruction off the sequential path changes nothing that is seen.
pub fn t4_3()
    ensures { (plan : Plan) (x : Sequential) (moves : List Move) (mv : Move) → IsAccepted plan → length x.hart.regs ≡ 32 →
        IsRun plan (start plan x) moves → bar plan (run plan (start plan x) moves).state mv ≡ None →
        KeepsOrActsOnPath plan x (run plan (start plan x) moves) mv }
{}

/// Of the retirement lines of two runs of one program, under any two layouts and orders of moves, one list is a prefix
/// of the other.
pub fn t4_4()
    ensures { (plan other : Plan) (x : Sequential) (moves others : List Move) → IsAccepted plan → IsAccepted other →
        length x.hart.regs ≡ 32 → IsRun plan (start plan x) moves → IsRun other (start other x) others →
        IsPrefix (lines plan (start plan x) moves) (lines other (start other x) others)
        ⊎ IsPrefix (lines other (start other x) others) (lines plan (start plan x) moves) }
{}

/// Each move but Issue lowers the weight, and Issue raises it by less than K; so a run with k Issue moves has at most K
/// times k moves.
pub fn t5_1()
    ensures costs { (plan : Plan) (x : Sequential) (m : Moment) (mv : Move) → IsAccepted plan → length x.hart.regs ≡ 32 →
        IsReached plan x m → bar plan m.state mv ≡ None →
        suc (weight plan (next plan m mv).state) ≤ weight plan m.state + moves_per_issue plan * counts (is_issue mv) 1 }
    ensures bounded { (plan : Plan) (x : Sequential) (moves : List Move) → IsAccepted plan → length x.hart.regs ≡ 32 →
        IsRun plan (start plan x) moves → length moves ≤ moves_per_issue plan * issues moves }
{}

/// If no move but Issue is allowed and the program has not ended, the processor is drained at the sequential machine,
/// and the next instruction can be issued.
pub fn t5_2()
    ensures { (plan : Plan) (x : Sequential) (m : Moment) → IsAccepted plan → length x.hart.regs ≡ 32 → IsReached plan x m →
        m.state.ending ≡ None → IsStuck plan m.state → Rests plan x m }
{}

/// With Issue held back every run has at most as many moves as the weight. If such a run is maximal, it ends in a way
/// that the state from which it starts determines.
pub fn t5_3()
    ensures bounded { (plan : Plan) (x : Sequential) (m : Moment) (moves : List Move) → IsAccepted plan →
        length x.hart.regs ≡ 32 → IsReached plan x m → IsRun plan m moves → issues moves ≡ 0 →
        length moves ≤ weight plan m.state }
    ensures ends { (plan : Plan) (x : Sequential) (m t : Moment) → IsAccepted plan → length x.hart.regs ≡ 32 →
        IsReached plan x m → m.state.ending ≡ None → Drains plan m t → EndsAs plan x m t }
{}

/// Two such runs end alike.
pub fn t5_4()
    ensures { (plan : Plan) (x : Sequential) (m t u : Moment) → IsAccepted plan → length x.hart.regs ≡ 32 →
        IsReached plan x m → Drains plan m t → Drains plan m u → EndAlike t u }
{}

/// Two independent moves can be exchanged: each is allowed after the other, and both orders lead to the same moment.
pub fn t5_5()
    ensures local { (plan : Plan) (m : Moment) (mv : Move) → IsLocal plan m mv }
    ensures swap { (plan : Plan) (m : Moment) (a b : Move) → AreIndependent plan m.state a b → bar plan m.state a ≡ None →
        bar plan m.state b ≡ None →
        (bar plan (next plan m a).state b ≡ None) × (bar plan (next plan m b).state a ≡ None)
        × (next plan (next plan m a) b ≡ next plan (next plan m b) a) }
    ensures before { (plan : Plan) (m : Moment) (a b : Move) → AreIndependent plan m.state a b → bar plan m.state a ≡ None →
        bar plan (next plan m a).state b ≡ None → bar plan m.state b ≡ None }
{}

/// In a drained state each cached value is its register's.
pub fn t5_7()
    ensures { (plan : Plan) (x : Sequential) (m : Moment) → IsAccepted plan → length x.hart.regs ≡ 32 → IsReached plan x m →
        m.state.ending ≡ None → is_drained m.state ≡ true → KeepsRegisters m.state }
{}

/// An allowed move other than Serve is taken back, at any moment: with the old contents of what it wrote put back, all is as
/// before.
pub fn moves_are_taken_back()
    ensures { (plan : Plan) (m : Moment) (mv : Move) → bar plan m.state mv ≡ None → mv ≢ Serve →
        taken_back (next plan m mv) (kept plan m.state mv) ≡ m }
{}

/// The moves of a run, none of which is Serve, are taken back one after another, beginning with the last: at the end
/// all is as before.
pub fn runs_are_taken_back()
    ensures { (plan : Plan) (m : Moment) (moves : List Move) → IsRun plan m moves → All (λ mv. mv ≢ Serve) moves →
        all_taken_back (run plan m moves) (kept_along plan m moves) ≡ m }
{}

/// The refinement move by move. In the view of count, registers and ending a move is either not a step of the
/// sequential machine, or it is Leave and is the machine's next step. In the view of input and output only Serve is a
/// step, and in the view of memory only Access and Serve are. A rank, the weight, falls at each move but Issue, which
/// no view sees.
pub fn stutters()
    ensures views { (plan : Plan) (x : Sequential) (m : Moment) (mv : Move) → IsAccepted plan → length x.hart.regs ≡ 32 →
        IsReached plan x m → bar plan m.state mv ≡ None → Stutters plan x m mv }
    ensures rank { (plan : Plan) (x : Sequential) (m : Moment) (mv : Move) → IsAccepted plan → length x.hart.regs ≡ 32 →
        IsReached plan x m → bar plan m.state mv ≡ None → is_issue mv ≡ false →
        suc (weight plan (next plan m mv).state) ≤ weight plan m.state }
{}

/// The line that a run is compared with, that of a step of the sequential machine, is shown by the line that the step
/// gives, and by no other.
pub fn own_lines()
    ensures { (isa : Isa) (x n : Sequential) (own shown : Retired) → step isa x ≡ Next n own → own.word < 2 ^ 32 →
        Shows (line_read isa own) own × (Shows (line_read isa own) shown → shown ≡ own) }
{}
