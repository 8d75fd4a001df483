//! The laws of a breakdown: what holds for every run. Each is the contract of a function that does nothing.

ghost use Rattle.std.specs.Prelude.{◌≡◌, ◌+◌, ℕ, List};
ghost use Rattle.cf_layout.specs.Layout.{Plan};
ghost use Rattle.cf_timed.specs.Chains.{IsChain, sum_of_delays};
ghost use Rattle.cf_semantics.specs.state.State.{State};
ghost use Rattle.cf_run.specs.Made.{Made};
ghost use Rattle.cf_timed.specs.DelayedRuns.{DelayRule};
ghost use Rattle.cf_timed.specs.Times.{DelayedMove, greatest_time, moves_with_times};
ghost use Rattle.run_ledger.specs.Breakdowns.{busy, longest_chain};
ghost use Rattle.run_ledger.specs.Gaps.{empty_time, waiting};
ghost use Rattle.run_ledger.specs.SeenMoves.{seen_in, time_of, untimed_all};
ghost use Rattle.run_ledger.specs.Using.{uses_stage};

/// The chain that is followed back from the last of the moves that finish latest is a chain of the run. The sum of its
/// delays is the run's time, so no chain has a larger sum.
pub fn chain_is_longest()
    ensures chain { (plan : Plan) (moves : List DelayedMove) →
        IsChain plan moves (longest_chain plan moves) }
    ensures sum { (plan : Plan) (moves : List DelayedMove) →
        sum_of_delays (longest_chain plan moves) ≡ greatest_time (moves_with_times plan moves) }
{}

/// The times in which a stage is in use, waits and is empty add up to the run's time. So no two moves use a stage at
/// the same time, and no time is counted twice or left out.
pub fn stages_add_up()
    ensures { (plan : Plan) (rule : DelayRule) (s : State) (trace : List Made) (i : ℕ) →
        busy (uses_stage plan i) (untimed_all (seen_in plan rule s trace)) + waiting plan (seen_in plan rule s trace) i
        + empty_time plan (seen_in plan rule s trace) i ≡ time_of plan (seen_in plan rule s trace) }
{}
