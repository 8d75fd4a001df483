//! A range of ticks.

ghost use Rattle.std.specs.Prelude.{◌≡◌, ◌≤◌};
ghost use Rattle.cf_timed.specs.Delays.{IsSpan, one_tick};
ghost use Rattle.cf_timed.specs.Drawing.{ticks_in};

/// A range of ticks, both ends included.
#[derive(Clone, Copy)]
pub struct Span {
    /// The fewest, at least 1.
    pub least: u32,

    /// The most, at most 1,000.
    pub greatest: u32,
}

impl Span {
    /// One tick.
    pub(crate) fn one_tick() -> Span
        ensures { result ≡ one_tick }
    {
        Span {
            least: 1,
            greatest: 1,
        }
    }

    /// The ticks that a word chooses; without a word the middle, rounded down.
    #[inline(always)]
    #[tactic(auto, unfolding(crate::specs::Drawing::ticks_in))]
    pub(crate) fn ticks(self, word: Option<u32>) -> u32
        requires { IsSpan self }
        ensures ticks { result ≡ ticks_in self word }
        ensures few { result ≤ 1000 }
    {
        let wide = self.greatest - self.least;
        match word {
            Some(word) => self.least + word % (wide + 1),
            None => self.least + wide / 2,
        }
    }
}
