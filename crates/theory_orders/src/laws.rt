//! The law of wrong orders, the contract of a function that does nothing.

ghost use Rattle.std.specs.Prelude.{◌≡◌, None, length};
ghost use Rattle.rv_machine.specs.Machine.{Machine as Sequential};
ghost use Rattle.cf_layout.specs.Layout.{Plan};
ghost use Rattle.cf_layout.specs.Accepted.{IsAccepted};
ghost use Rattle.cf_bind.specs.declared.moves.Move.{Move};
ghost use Rattle.cf_semantics.specs.moves.Bars.{bar};
ghost use Rattle.cf_semantics.specs.runs.Runs.{IsReached};
ghost use Rattle.cf_semantics.specs.state.State.{Moment};
ghost use Rattle.theory_orders.specs.Wrong.{IsRightMoment, IsRightMove};

/// No list of moves that the table allows is wrong: no move of a run is, and no moment that a run reaches.
pub fn t12_3()
    ensures moves { (plan : Plan) (x : Sequential) (m : Moment) (mv : Move) → IsAccepted plan → length x.hart.regs ≡ 32 →
        IsReached plan x m → bar plan m.state mv ≡ None → IsRightMove plan x m mv }
    ensures moments { (plan : Plan) (x : Sequential) (m : Moment) → IsAccepted plan → length x.hart.regs ≡ 32 →
        IsReached plan x m → IsRightMoment plan x m }
{}
