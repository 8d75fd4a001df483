//! Which calls of an object in memory are to fail.

ghost use Rattle.std.specs.Prelude.{◌≡◌, []};
ghost use Rattle.cf_io.specs.FailingCalls.{after_call, fails_next, no_calls};

use std::marker::Model;

/// The numbers of the calls that are to fail, and how many calls were made. The first call is number 1.
#[derive(Drop)]
pub(crate) struct FailingCalls {
    fails: Vec<u64>,
    made: u64,
}

impl Model for FailingCalls {
    ghost use Rattle.std.specs.Prelude.{◌<◌, ◌^◌, All};
    ghost use Rattle.cf_io.specs.FailingCalls.{Calls};

    ghost Value = { Calls };

    ghost view = { λ c. record { fails = c.fails.items; made = c.made } };

    ghost invariant = { λ c. All (λ number. number < 2 ^ 64) c.fails.items };
}

impl FailingCalls {
    pub(crate) fn new(fails: Vec<u64>) -> FailingCalls
        ensures { result ≡ no_calls fails.items }
    {
        FailingCalls { fails, made: 0 }
    }

    /// Counts one more call and returns whether it is to fail. A call above the maximum of `u64` has a number that no
    /// list holds, so it does not fail.
    #[tactic(auto, unfolding(crate::specs::FailingCalls::fails_next))]
    pub(crate) fn next(&mut self) -> bool
        ensures answer { result ≡ fails_next self.old }
        ensures state { self.new ≡ after_call self.old }
    {
        match self.made.checked_add(1) {
            Some(number) => {
                self.made = number;
                self.fails.contains(&number)
            }
            None => false,
        }
    }
}
