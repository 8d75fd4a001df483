//! Which moves used the sites of a processor last, and how long each stage and siding was in use.

ghost use Rattle.std.specs.Prelude.{◌≡◌, map, slice_set};
ghost use Rattle.cf_timed.specs.Times.{delayed};
ghost use Rattle.run_ledger.specs.Ledgers.{followed, latest_of, chain_mark_at, mark_of, no_chain_mark, ledger_noted, new_ledger, place_numbers, put_marks, with_marks};

use crate::charging::{charge_sidings, charge_stages, one_more};
use crate::mark::{ChainMark, later};
use crate::places::places_of;
use cf_bind::Move;
use cf_layout::Layout;

/// For each site of a processor the last move that used it, with the counts by kind of the chain that ends with it; how
/// long each stage and siding was in use; and the counts of moves by kind. It allocates no memory.
#[derive(Clone, Copy)]
pub(crate) struct Ledger {
    pub(crate) layout: Layout,
    /// How many moves were made.
    pub(crate) count: u64,
    /// The mark of each site, by its number.
    pub(crate) marks: [ChainMark; 102],
    /// The mark of the last of the moves that finish latest.
    pub(crate) last: ChainMark,
    pub(crate) stages: [u64; 33],
    pub(crate) sidings: [u64; 8],
    pub(crate) kinds: [u64; 14],
}

impl Ledger {
    /// A ledger before the first move.
    #[tactic(auto, unfolding(crate::specs::Ledgers::new_ledger))]
    pub(crate) fn new(layout: &Layout) -> Ledger
        ensures { result ≡ new_ledger layout.now }
    {
        Ledger {
            layout: *layout,
            count: 0,
            marks: [ChainMark::none(); 102],
            last: ChainMark::none(),
            stages: [0; 33],
            sidings: [0; 8],
            kinds: [0; 14],
        }
    }

    /// The mark at a site.
    #[inline(always)]
    fn mark(&self, place: usize) -> ChainMark
        ensures { result ≡ chain_mark_at self.now.marks place }
    {
        self.marks.get(place).copied().unwrap_or(ChainMark::none())
    }

    /// The latest mark at some sites.
    fn latest(&self, places: &[usize]) -> ChainMark
        ensures { result ≡ latest_of no_chain_mark (map (chain_mark_at self.now.marks) places.now) }
    {
        let mut latest = ChainMark::none();
        for place in places {
            latest = later(latest, self.mark(*place));
        }
        latest
    }

    /// Sets the mark at a site.
    #[inline(always)]
    fn put_at(&mut self, mark: ChainMark, place: usize)
        ensures { self.new ≡ with_marks self.old (slice_set self.old.marks place mark) }
    {
        if place < 102 {
            self.marks[place] = mark;
        }
    }

    /// Sets the mark at some sites.
    fn put(&mut self, mark: ChainMark, places: &[usize])
        ensures { self.new ≡ with_marks self.old (put_marks mark self.old.marks places.now) }
    {
        for place in places {
            self.put_at(mark, *place);
        }
    }

    /// The mark of a move that is made now and takes this many ticks.
    #[tactic(auto, unfolding(crate::specs::Ledgers::followed, crate::specs::Ledgers::mark_of))]
    fn mark_of(&self, mv: Move, ticks: u64, places: &[usize]) -> ChainMark
        requires { places.now ≡ place_numbers self.now.layout mv }
        ensures { result ≡ mark_of self.now (delayed mv ticks) }
    {
        let followed = self.latest(places);
        ChainMark {
            time: followed.time.saturating_add(ticks),
            number: self.count.saturating_add(1),
            kinds: one_more(followed.kinds, mv),
        }
    }

    /// Records a move that is made now and takes this many ticks. Numbers are capped at the maximum of `u64`.
    #[tactic(auto, unfolding(crate::specs::Ledgers::ledger_noted))]
    pub(crate) fn record(&mut self, mv: Move, ticks: u64)
        ensures { self.new ≡ ledger_noted self.old (delayed mv ticks) }
    {
        let places = places_of(&self.layout, mv);
        let mark = self.mark_of(mv, ticks, places.as_slice());
        self.put(mark, places.as_slice());
        self.last = later(self.last, mark);
        self.count = self.count.saturating_add(1);
        self.stages = charge_stages(&self.layout, mv, ticks, &self.stages);
        self.sidings = charge_sidings(&self.layout, mv, ticks, &self.sidings);
        self.kinds = one_more(self.kinds, mv);
    }
}
