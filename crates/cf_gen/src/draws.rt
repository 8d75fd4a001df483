//! The numbers that a program is drawn from.
#![tactic(auto, unfolding(crate::specs::Draws::state_after_draw))]

ghost use Rattle.std.specs.Prelude.{◌≡◌, ◌<◌};
ghost use Rattle.cf_gen.specs.Draws.{state_after_draw, drawn_below};

use std::marker::Model;

/// A linear congruential generator; the upper half of its state is drawn. Contracts see it as its state.
#[derive(Drop)]
pub struct Draws {
    state: u32,
}

impl Model for Draws {
    ghost use Rattle.std.specs.Prelude.{ℕ};

    ghost Value = { ℕ };

    ghost view = { λ draws. draws.state };
}

impl Draws {
    /// The generator that starts at a number.
    pub fn new(number: u32) -> Draws
        ensures { result ≡ number }
    {
        Draws { state: number }
    }

    /// The next number below a bound.
    pub fn below(&mut self, bound: u32) -> u32
        requires { 0 < bound }
        ensures number { result ≡ drawn_below bound self.old }
        ensures small { result < bound }
        ensures state { self.new ≡ state_after_draw self.old }
    {
        self.state = self
            .state
            .wrapping_mul(1_664_525)
            .wrapping_add(1_013_904_223);
        self.state / 0x1_0000 % bound
    }
}
