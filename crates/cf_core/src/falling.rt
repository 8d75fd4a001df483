//! Results fall, all that can in one sweep upward: their moves are made at once.

ghost use Rattle.std.specs.Prelude.{◌≡◌};
ghost use Rattle.cf_stages.specs.Falling.{AreResting, AreSomeFalls, FallsOn};
ghost use Rattle.cf_core.specs.Falling.{BarNoLaunch, FallsTo};
ghost use Rattle.cf_core.specs.Places.{with_cells};

use crate::counterflow::Core;
use crate::processor::Processor;
use cf_stages::Fallen;

impl Processor {
    /// Lets the results of these stages fall in turn, and those above that can fall then.
    #[inline(always)]
    fn fall_on(&mut self, left: u32, resting: u32) -> Fallen
        requires left { AreSomeFalls self.old.state.cells left }
        requires resting { AreResting self.old.state.cells resting }
        ensures falls { FallsOn self.old.state.cells left self.new.state.cells result.count result.last }
        ensures processor { self.new ≡ with_cells self.old self.new.state.cells }
    {
        self.stages.fall_on(left, resting)
    }
}

impl Core {
    /// Lets the results of these stages fall, move after move, from the lowest up, and after each that of the stage above, if
    /// a result rests there; answers how many fell, and from where. No result may come to a stage from which an operation
    /// can be launched: so the marks stay as they are.
    #[inline(always)]
    pub fn fall_on(&mut self, left: u32, resting: u32) -> Fallen
        requires left { AreSomeFalls self.old.state.cells left }
        requires resting { AreResting self.old.state.cells resting }
        requires quiet { BarNoLaunch self.old.plan self.old.state }
        ensures { FallsTo self.old self.new left result.count result.last }
    {
        self.processor.fall_on(left, resting)
    }
}
