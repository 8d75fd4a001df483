//! The laws of times: what holds of every run, whatever chose its moves. Each is the contract of a function that does
//! nothing; docs/PROMISES.md states each in words.

ghost use Rattle.std.specs.Prelude.{◌≡◌, ℕ, List, [], ◌∷◌, ◌++◌, false};
ghost use Rattle.std.specs.List.{AllByRecursion};
ghost use Rattle.rv_machine.specs.Machine.{Machine as Sequential};
ghost use Rattle.cf_layout.specs.Layout.{Plan};
ghost use Rattle.cf_layout.specs.Accepted.{IsAccepted};
ghost use Rattle.cf_bind.specs.declared.moves.Move.{Move};
ghost use Rattle.cf_semantics.specs.runs.Runs.{IsRun, run, start};
ghost use Rattle.cf_index.specs.Alone.{stands_alone};
ghost use Rattle.cf_index.specs.Sites.{HasSites, shares};
ghost use Rattle.cf_timed.specs.Chains.{IsLongest};
ghost use Rattle.cf_timed.specs.Clocks.{ClockKnows, made_all, started};
ghost use Rattle.cf_timed.specs.DelayedRuns.{DelayRule, Visit, timed_visits};
ghost use Rattle.cf_timed.specs.Exchanges.{CanExchange};
ghost use Rattle.cf_timed.specs.Times.{DelayedMove, greatest_time, moves_with_times};

/// A clock that has recorded the moves of a run has their maximum time, and knows how long a further move takes and
/// when it finishes. That time is the sum of the delays of some chain of the run, and no chain has a larger sum.
pub fn t7_1()
    ensures clock { (plan : Plan) (rule : DelayRule) (visits : List Visit) → IsAccepted plan →
        AllByRecursion (λ v. HasSites plan v.mv) visits →
        ClockKnows plan rule (timed_visits plan rule visits) (made_all (started plan rule) visits) }
    ensures longest { (plan : Plan) (moves : List DelayedMove) → IsLongest plan moves (greatest_time (moves_with_times plan moves)) }
{}

/// Two neighbouring moves of a run that have no site in common can be exchanged, unless one of them is a Serve or the
/// Leave that ends the program, and each move of the run keeps its delay and its time.
pub fn t7_2()
    ensures { (plan : Plan) (x : Sequential) (rule : DelayRule) (front : List Move) (a b : Move) (rest : List Move) → IsAccepted plan →
        HasSites plan a → HasSites plan b →
        IsRun plan (start plan x) (front ++ a ∷ b ∷ rest) → shares plan a b ≡ false →
        stands_alone plan (run plan (start plan x) front).state a ≡ false →
        stands_alone plan (run plan (start plan x) (front ++ a ∷ [])).state b ≡ false →
        CanExchange plan (start plan x) rule front a b rest }
{}
