//! The law of rounds, as the contract of a function that does nothing.

ghost use Rattle.std.specs.Prelude.{◌≡◌, List};
ghost use Rattle.cf_layout.specs.Layout.{Plan};
ghost use Rattle.cf_bind.specs.declared.moves.Move.{Move as AnyMove};
ghost use Rattle.cf_semantics.specs.runs.Runs.{IsRun, run};
ghost use Rattle.cf_semantics.specs.state.State.{Moment};
ghost use Rattle.cf_index.specs.Alone.{HasSidings};
ghost use Rattle.cf_rounds.specs.Rounds.{IsOrderOf, IsRound};

/// Every order of the moves of a round is a run, and all orders lead to the moment to which the round itself leads.
pub fn t8_2()
    ensures allowed { (plan : Plan) (m : Moment) (round order : List AnyMove) → HasSidings plan m.state →
        IsRound plan m.state round → IsOrderOf round order → IsRun plan m order }
    ensures same { (plan : Plan) (m : Moment) (round order : List AnyMove) → HasSidings plan m.state →
        IsRound plan m.state round → IsOrderOf round order → run plan m order ≡ run plan m round }
{}
