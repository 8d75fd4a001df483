//! Exit: the result of the lowest stage leaves.

ghost use Rattle.std.specs.Prelude.{◌≡◌, None};
ghost use Rattle.cf_bind.specs.declared.moves.Move.TheVariants as mv;
ghost use Rattle.cf_semantics.specs.moves.Bars.{row_bar};
ghost use Rattle.cf_passengers.specs.Facts.{IsPacket};
ghost use Rattle.cf_core.specs.Ends.{taken_in};
ghost use Rattle.cf_core.specs.Marks.{row_allows};
ghost use Rattle.cf_core.specs.Masks.{is_allowed};
ghost use Rattle.cf_core.specs.Processors.{IsProcessor, in_state, after_move};

use crate::counterflow::Core;
use crate::processor::Processor;
use crate::rows::first_of;
use cf_bind::{Bar, Fetch, Packet};

impl Processor {
    /// The first bar of Exit.
    #[inline(always)]
    pub(crate) fn exit_bar(&self) -> Option<Bar>
        requires { IsProcessor self.now.plan self.now.state }
        ensures { result ≡ row_bar self.now.plan self.now.state mv.Exit }
    {
        first_of(&[
            (self.bottom().packet.is_none(), Bar::NoPacket),
            (self.stages.is_full(1), Bar::NotMet),
        ])
    }

    /// Whether no test in the row of Exit holds; it does not say which one does.
    #[inline(always)]
    #[tactic(auto, using(crate::proofs::moves::Allows::exit_free))]
    fn exits(&self) -> bool
        requires { IsProcessor self.now.plan self.now.state }
        ensures { result ≡ row_allows self.now.plan self.now.state mv.Exit }
    {
        self.stages.has_packet(1) && !self.stages.is_full(1)
    }

    /// Takes in a result that has left. A value is cached if the layout has the cache. After a turn fetch goes on at
    /// its address, and after a halt it waits; both clear the cache.
    #[inline(always)]
    fn take_in(&mut self, packet: Packet)
        requires { IsPacket packet }
        ensures { self.new ≡ in_state self.old (taken_in self.old.plan self.old.state packet) }
    {
        match packet {
            Packet::Value { reg, value } => {
                if self.layout.cache() {
                    self.ends.keep(reg, value);
                }
            }
            Packet::Turn(pc) => {
                self.ends.set_fetch(Fetch::Running(pc));
                self.ends.clear();
            }
            Packet::Halt => {
                self.ends.set_fetch(Fetch::Waiting);
                self.ends.clear();
            }
        }
    }

    /// The result of the lowest stage leaves.
    #[inline(never)]
    #[tactic(auto, unfolding(cf_semantics::specs::moves::Moves::moved))]
    pub(crate) fn exit(&mut self)
        requires facts { IsProcessor self.old.plan self.old.state }
        requires allowed { row_bar self.old.plan self.old.state mv.Exit ≡ None }
        ensures { self.new ≡ after_move self.old mv.Exit }
    {
        let packet = self.stages.take_bottom();
        self.take_in(packet);
    }
}

impl Core {
    /// Whether Exit is allowed.
    #[inline(always)]
    #[tactic(auto, using(crate::proofs::moves::Allows::allowing))]
    pub fn may_exit(&self) -> bool
        ensures { result ≡ is_allowed self.now.plan self.now.state mv.Exit }
    {
        let processor = &self.processor;
        processor.goes_on() && processor.exits()
    }
}
