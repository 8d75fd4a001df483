//! How long instructions take, counted by their classes, move after move.

ghost use Rattle.std.specs.Prelude.{◌≡◌};
ghost use Rattle.run_ledger.specs.ClassCounts.{issues_after, latencies_noted, leaving_noted, no_latencies, one_retired as with_one, passage_noted, ticks_added as with_ticks};
ghost use Rattle.cf_layout.specs.Layout.{place_of};
ghost use Rattle.run_ledger.specs.Latencies.{class_retired as retired_class};

use crate::gaps::start_of;
use cf_bind::Move;
use cf_core::Event;
use cf_layout::Layout;
use cf_timed::TimedMove;
use rv_inst::{Class, class_of, decode_m};

/// When the instructions in the stages were issued, and how long the instructions took that retired.
#[derive(Clone, Copy)]
pub(crate) struct Latencies {
    /// For each stage, when the Issue of the last instruction in it started, in ticks.
    pub(crate) issued: [u64; 34],

    /// How many instructions of each class retired, in class order.
    pub(crate) retired: [u64; 11],

    /// How many ticks these instructions took in total, each from the start of its Issue to the end of its Leave. Those
    /// in the pipe at the same time are all counted, so the sum can exceed the time of the run.
    pub(crate) ticks: [u128; 11],
}

/// The index of a class in class order.
#[inline(always)]
fn class_place(class: Class) -> usize
    ensures { result ≡ place_of class }
{
    match class {
        Class::Add => 0,
        Class::Logic => 1,
        Class::Shift => 2,
        Class::Compare => 3,
        Class::Branch => 4,
        Class::Jump => 5,
        Class::Memory => 6,
        Class::Mul => 7,
        Class::Div => 8,
        Class::Serial => 9,
        Class::Free => 10,
    }
}

/// The class of the instruction that retired with a move, if one did.
#[inline(always)]
fn class_retired(event: &Event) -> Option<Class>
    ensures { result ≡ retired_class event.now }
{
    match event {
        Event::Retired(line) => match decode_m(line.word) {
            Some(what) => Some(class_of(what)),
            None => None,
        },
        Event::Plain | Event::Killed | Event::Died | Event::Ended(_) => None,
    }
}

/// The counts with one more instruction of the class.
#[inline(always)]
fn one_retired(class: Class, counts: [u64; 11]) -> [u64; 11]
    ensures { result ≡ with_one class counts }
{
    let mut counts = counts;
    let place = class_place(class);
    counts[place] = counts[place].saturating_add(1);
    counts
}

/// The sums with this many more ticks for the class.
#[inline(always)]
fn ticks_added(class: Class, more: u64, ticks: [u128; 11]) -> [u128; 11]
    ensures { result ≡ with_ticks class more ticks }
{
    let mut ticks = ticks;
    let place = class_place(class);
    ticks[place] = ticks[place].saturating_add(u128::from(more));
    ticks
}

/// The starts of the Issue of the instruction in each stage, after a move.
#[inline(always)]
fn issues_after(done: &TimedMove, issued: [u64; 34]) -> [u64; 34]
    ensures { result ≡ issues_after done.now done.now.mv issued }
{
    let mut issued = issued;
    match done.mv {
        Move::Issue(_) => issued[1] = start_of(done),
        Move::Climb(i) => {
            if i < 33 {
                issued[i as usize + 1] = issued[i as usize];
            }
        }
        Move::Emit
        | Move::Fall(_)
        | Move::Meet(_)
        | Move::Execute(_)
        | Move::Send(_)
        | Move::Launch(_)
        | Move::Slide(_, _)
        | Move::Access
        | Move::Recover(_)
        | Move::Leave
        | Move::Exit
        | Move::Serve => {}
    }
    issued
}

impl Latencies {
    /// No move was made.
    pub(crate) fn none() -> Latencies
        ensures { result ≡ no_latencies }
    {
        Latencies {
            issued: [0; 34],
            retired: [0; 11],
            ticks: [0; 11],
        }
    }

    /// An instruction of the class leaves the last stage with a move.
    #[inline(always)]
    #[tactic(auto, unfolding(crate::specs::ClassCounts::passage_noted))]
    fn passed(self, layout: &Layout, done: &TimedMove, class: Class) -> Latencies
        ensures { result ≡ passage_noted layout.now done.now self class }
    {
        let top = layout.stages() as usize;
        let start = self.issued.get(top).copied().unwrap_or(0);
        let issued = self.issued;
        let retired = one_retired(class, self.retired);
        let ticks = ticks_added(class, done.time.saturating_sub(start), self.ticks);
        Latencies {
            issued,
            retired,
            ticks,
        }
    }

    /// The same, if one retires with the move.
    #[inline(always)]
    fn left(self, layout: &Layout, event: &Event, done: &TimedMove) -> Latencies
        ensures { result ≡ leaving_noted layout.now done.now event.now self }
    {
        match class_retired(event) {
            Some(class) => self.passed(layout, done, class),
            None => self,
        }
    }

    /// The counts after a move.
    #[tactic(auto, unfolding(crate::specs::ClassCounts::latencies_noted))]
    pub(crate) fn after_move(self, layout: &Layout, event: &Event, done: &TimedMove) -> Latencies
        ensures { result ≡ latencies_noted layout.now done.now event.now self }
    {
        let left = self.left(layout, event, done);
        let issued = issues_after(done, left.issued);
        let retired = left.retired;
        let ticks = left.ticks;
        Latencies {
            issued,
            retired,
            ticks,
        }
    }
}
