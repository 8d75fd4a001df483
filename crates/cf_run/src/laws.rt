//! The laws of runs: what holds of every run, whatever chose its moves. Each is the contract of a function that does
//! nothing; docs/PROMISES.md states each in words.

ghost use Rattle.std.specs.Prelude.{◌≡◌, ◌≤◌, ◌<◌, ◌-◌, ℕ, List, None, Some, length, slice_get};
ghost use Rattle.run_options.specs.declared.guess_rule.GuessRule.{GuessRule};
ghost use Rattle.run_options.specs.declared.reporting.Reporting.{Reporting};
ghost use Rattle.rv_machine.specs.Hart.{Hart};
ghost use Rattle.cf_bind.specs.declared.moves.Move.{Move};
ghost use Rattle.cf_layout.specs.Accepted.{IsAccepted};
ghost use Rattle.cf_layout.specs.Layout.{Plan};
ghost use Rattle.cf_semantics.specs.moves.Bars.{bar};
ghost use Rattle.cf_semantics.specs.state.State.{State};
ghost use Rattle.cf_core.specs.Processors.{opened_processor, IsOpened};
ghost use Rattle.run_finishes.specs.declared.finish.Ran.{Ran as Answer};
ghost use Rattle.run_finishes.specs.declared.finish.Scripted.{Scripted};
ghost use Rattle.run_finishes.specs.declared.finish.Scripted.TheVariants.{Ran};
ghost use Rattle.cf_run.specs.Ending.{EndsAlike};
ghost use Rattle.cf_run.specs.Headline.{RunsSequentially};
ghost use Rattle.cf_run.specs.Moving.{RunPlace};
ghost use Rattle.cf_run.specs.Policies.{Chooser, Picks, RunsPolicy, first_pick, fresh_chooser, later_picks, most_moves, offered_to};
ghost use Rattle.cf_run.specs.Reaching.{GoesOn, Reaches};
ghost use Rattle.cf_run.specs.Scripts.{ScriptRun, RunsScript, first_moves};

/// The run of a script or of a policy on an opened processor is a run of the sequential machine: retired instructions,
/// registers and ending are those after as many instructions. Input, output and memory are those after the instructions
/// that were served or have passed the memory port.
pub fn t4_2()
    ensures scripts { (limit : ℕ) (show : Reporting) (start new : ScriptRun) (answer : Scripted) → IsAccepted start.place.core.plan →
        length start.place.core.state.regs ≡ 32 → RunsScript limit show start new answer →
        RunsSequentially show (first_moves start.script new.place.tally) start.place new.place answer }
    ensures policies { (rule : GuessRule) (limit : ℕ) (show : Reporting) (start new : RunPlace) (picks later : List ℕ) (moves : List Move) (answer : Answer) →
        IsAccepted start.core.plan → length start.core.state.regs ≡ 32 →
        RunsPolicy rule first_pick later_picks limit show start new picks later moves answer →
        RunsSequentially show moves start new (Ran answer) }
{}

/// If the run of a script or of a policy ends with Exit, Trap or Limit, its ending, the retired count, the registers
/// and what was taken of the input and written to the output are those of the sequential machine under the same limit.
pub fn t4_5()
    ensures scripts { (limit : ℕ) (show : Reporting) (start new : ScriptRun) (hart : Hart) (answer : Scripted) →
        IsAccepted start.place.core.plan → length hart.regs ≡ 32 → start.place.core ≡ opened_processor start.place.core.plan hart →
        RunsScript limit show start new answer → EndsAlike limit hart start.place new.place answer }
    ensures policies { (rule : GuessRule) (limit : ℕ) (show : Reporting) (start new : RunPlace) (picks later : List ℕ) (moves : List Move) (hart : Hart)
        (answer : Answer) → IsAccepted start.core.plan → length hart.regs ≡ 32 → start.core ≡ opened_processor start.core.plan hart →
        RunsPolicy rule first_pick later_picks limit show start new picks later moves answer →
        EndsAlike limit hart start new (Ran answer) }
{}

/// The run of a policy on an opened processor has at most 4 N K (r + 1) moves, where r instructions retire in it,
/// whatever the policy picks, under each guess rule and whatever the input exposes. Until the run is over a move is
/// offered, so it ends.
pub fn t5_6()
    ensures bounded { (rule : GuessRule) (limit : ℕ) (show : Reporting) (start new : RunPlace) (picks later : List ℕ) (moves : List Move)
        (answer : Answer) → IsAccepted start.core.plan → length start.core.state.regs ≡ 32 → IsOpened start.core →
        RunsPolicy rule first_pick later_picks limit show start new picks later moves answer →
        new.tally.moves ≤ most_moves start.core.plan (new.core.state.retired - start.core.state.retired) }
    ensures offered { (rule : GuessRule) (limit : ℕ) (show : Reporting) (start now : RunPlace) (picks : List ℕ) (at : Chooser (List ℕ)) →
        IsAccepted start.core.plan → length start.core.state.regs ≡ 32 → IsOpened start.core →
        (reached : Reaches limit show start now) →
        Picks first_pick later_picks start.core.plan (fresh_chooser rule picks) start.core.state reached.trace at →
        GoesOn limit now.core.state → 0 < length (offered_to now.core.plan at now.core.state) }
    ensures allowed { (plan : Plan) (at : Chooser (List ℕ)) (s : State) (place : ℕ) (mv : Move) →
        slice_get (offered_to plan at s) place ≡ Some mv → bar plan s mv ≡ None }
{}
