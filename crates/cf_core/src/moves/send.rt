//! Send: the instruction of a stage sends the result that it owes.

ghost use Rattle.std.specs.Prelude.{◌≡◌, None};
ghost use Rattle.cf_bind.specs.declared.moves.Move.TheVariants as mv;
ghost use Rattle.cf_semantics.specs.moves.Bars.{row_bar};
ghost use Rattle.cf_core.specs.Processors.{IsProcessor, after_move};

use crate::processor::Processor;
use crate::rows::first_of;
use cf_bind::Bar;

impl Processor {
    /// The first bar of Send in this stage.
    #[inline(always)]
    pub(crate) fn send_bar(&self, i: u32) -> Option<Bar>
        requires { IsProcessor self.now.plan self.now.state }
        ensures { result ≡ row_bar self.now.plan self.now.state (mv.Send i) }
    {
        let passenger = match self.rider(i) {
            Ok(passenger) => passenger,
            Err(bar) => return Some(bar),
        };
        first_of(&[
            (passenger.owes.is_none(), Bar::OwesNothing),
            (self.stages.has_packet(i), Bar::Occupied),
        ])
    }

    /// The instruction of the stage sends the result that it owes.
    #[inline(never)]
    #[tactic(auto, using(crate::proofs::moves::Riding::riding, crate::proofs::moves::Sending::sending), unfolding(cf_semantics::specs::moves::Moves::moved))]
    pub(crate) fn send(&mut self, i: u32)
        requires { row_bar self.old.plan self.old.state (mv.Send i) ≡ None }
        ensures { self.new ≡ after_move self.old (mv.Send i) }
    {
        if let Some(packet) = self.stages.passenger_mut(i).owes.take() {
            self.stages.put_packet(i, packet, true);
        }
    }
}
