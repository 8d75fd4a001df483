//! The laws of recorded traces, as contracts of functions that do nothing.

ghost use Rattle.std.specs.Prelude.{◌≡◌, ◌^◌, ℕ, List, None, Some};
ghost use Rattle.cf_layout.specs.Layout.{Plan};
ghost use Rattle.cf_bind.specs.declared.moves.Move.{Move as AnyMove};
ghost use Rattle.cf_semantics.specs.moves.Bars.{bar};
ghost use Rattle.cf_semantics.specs.state.State.{State as AnyState};
ghost use Rattle.cf_core.specs.Processors.{IsProcessor, Processor};
ghost use Rattle.run_scripts.specs.MoveLines.{NumbersBelow};
ghost use Rattle.cf_semantics.specs.state.State.{Moment};
ghost use Rattle.run_scripts.specs.declared.trace_refusal.TraceKind.{TraceKind as Kind};
ghost use Rattle.cf_audit.specs.Traces.{GoesWrong, IsReadBack, IsTrace};

/// Over an input whose remaining bytes are known, all runs with the same trace have the same number of moves, and a
/// text that goes wrong is the trace of no run.
pub fn t9_1()
    ensures one_number { (core : Processor) (told text : List ℕ) (n k : ℕ) (last end : Moment) →
        IsTrace core (Some told) text n last → IsTrace core (Some told) text k end → n ≡ k }
    ensures wrong_for_none { (core : Processor) (told text : List ℕ) (line n : ℕ) (kind : Kind) (stop last : Moment) →
        GoesWrong core (Some told) text line kind stop → IsTrace core (Some told) text n last → ⊥ }
{}

/// Every move that a processor allows has numbers of stages, sidings and cells below 1,000,000,000, so the line that is
/// written for it is read as that move. The numbers of any move are of 32 bits.
pub fn allowed_moves_are_read_back()
    ensures small { (plan : Plan) (s : AnyState) (mv : AnyMove) → IsProcessor plan s → NumbersBelow (2 ^ 32) mv →
        bar plan s mv ≡ None → NumbersBelow (10 ^ 9) mv }
    ensures read_back { (plan : Plan) (s : AnyState) (mv : AnyMove) → IsProcessor plan s → NumbersBelow (2 ^ 32) mv →
        bar plan s mv ≡ None → IsReadBack mv }
{}
