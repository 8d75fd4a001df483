//! The instruction of a stage, borrowed for writing.

ghost use Rattle.std.specs.Prelude.{◌≡◌, IsSome, Some};
ghost use Rattle.std.specs.Borrow.{sem};
ghost use Rattle.cf_stages.specs.Changes.{passenger_at};

use crate::stages::Stages;
use cf_bind::Passenger;

impl Stages {
    ghost use Rattle.cf_stages.specs.Lending.{LendsPassenger};

    /// The instruction of the stage, borrowed for writing. Writing through the borrow changes neither the result of the
    /// stage nor whether the two have met.
    #[inline(always)]
    pub fn passenger_mut(&mut self, i: u32) -> &mut Passenger
        requires { IsSome (passenger_at self.old i) }
        ensures* writes_back { sem 𝓛 (LendsPassenger self.entry i result) }
        ensures value { passenger_at self.old i ≡ Some result.now }
    {
        &mut self.passengers[i as usize - 1]
    }
}
