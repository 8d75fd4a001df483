//! The first of the moves that finish earliest, found while the moves are shown one by one.

ghost use Rattle.std.specs.Prelude.{◌≡◌};
ghost use Rattle.cf_timed.specs.Clocks.{clocked};
ghost use Rattle.cf_timed.specs.Seeking.{nothing, shown};

use crate::clock::Clock;
use cf_bind::Move;
use cf_core::Core;
use cf_index::Visitor;
use std::marker::Model;

/// How many moves were shown, and the first of those that finish earliest, with its index and its time.
#[derive(Drop)]
pub(crate) struct Least<'a> {
    pub(crate) clock: &'a Clock,
    pub(crate) core: &'a Core,
    pub(crate) shown: usize,
    pub(crate) place: usize,
    pub(crate) time: u64,
    pub(crate) mv: Move,
}

impl<'a> Model for Least<'a> {
    ghost use Rattle.cf_timed.specs.Seeking.{Seeking};

    ghost Value = { Seeking };

    ghost view = { λ l. record { clock = record { clock = l.clock.now; state = l.core.now.state }; shown = l.shown; place = l.place; time = l.time; move = l.mv } };
}

impl<'a> Visitor for Least<'a> {
    ghost after = { shown };

    #[inline(always)]
    fn visit(&mut self, mv: Move) {
        let time = self.clock.capped(self.core, mv);
        if time < self.time {
            self.time = time;
            self.place = self.shown;
            self.mv = mv;
        }
        self.shown = self.shown.saturating_add(1);
    }
}

impl<'a> Least<'a> {
    /// The state before the first move.
    #[inline(always)]
    pub(crate) fn new(clock: &'a Clock, core: &'a Core) -> Least<'a>
        ensures { result ≡ nothing (clocked clock.now core.now.state) }
    {
        Least {
            clock,
            core,
            shown: 0,
            place: 0,
            time: u64::MAX,
            mv: Move::Exit,
        }
    }
}
