//! The progress through a log.

ghost use Rattle.std.specs.Prelude.{◌≡◌};
ghost use Rattle.cf_conform.specs.LogPlaces.{no_progress, noted_event};

use cf_core::Event;
use cf_report::Tally;
use rv_machine::Retired;

/// The instruction that retired last.
#[derive(Clone, Copy)]
pub struct LatestRetired {
    /// Its number in the order of retirement, counted from 1.
    pub number: u64,

    /// Its line.
    pub retired: Retired,
}

/// What is recorded about the lines of a log so far.
#[derive(Clone, Copy)]
pub struct LogProgress {
    /// The counts of the moves.
    pub tally: Tally,

    /// The latest time.
    pub time: u64,

    /// How many observations agreed.
    pub observed: u64,

    /// The instruction that retired last, if one did.
    pub latest: Option<LatestRetired>,
}

impl LogProgress {
    /// Before the first line.
    pub fn new() -> LogProgress
        ensures { result ≡ no_progress }
    {
        LogProgress {
            tally: Tally {
                moves: 0,
                meets: 0,
                kills: 0,
                dead: 0,
            },
            time: 0,
            observed: 0,
            latest: None,
        }
    }

    /// Records the event of a move, after which this many instructions have retired.
    #[inline(always)]
    pub(crate) fn note(&mut self, event: &Event, retired: u64)
        ensures { self.new ≡ noted_event self.old event.now retired }
    {
        match event {
            Event::Retired(line) => {
                self.latest = Some(LatestRetired {
                    number: retired,
                    retired: *line,
                });
            }
            Event::Plain | Event::Killed | Event::Died | Event::Ended(_) => {}
        }
    }
}
