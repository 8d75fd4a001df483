//! What is recorded about the last move that used a site.

ghost use Rattle.std.specs.Prelude.{◌≡◌};
ghost use Rattle.run_ledger.specs.Ledgers.{later as later_mark, no_chain_mark};

/// A move that was made, and the chain that ends with it.
#[derive(Clone, Copy)]
pub(crate) struct ChainMark {
    /// When it finishes, in ticks.
    pub(crate) time: u64,

    /// Its number in the run, from 1.
    pub(crate) number: u64,

    /// How many moves of each kind are on the chain.
    pub(crate) kinds: [u64; 14],
}

impl ChainMark {
    /// No move.
    #[inline(always)]
    pub(crate) fn none() -> ChainMark
        ensures { result ≡ no_chain_mark }
    {
        ChainMark {
            time: 0,
            number: 0,
            kinds: [0; 14],
        }
    }
}

/// The mark of the move that finishes later, or of the later move if both finish at the same time.
#[inline(always)]
pub(crate) fn later(a: ChainMark, b: ChainMark) -> ChainMark
    ensures { result ≡ later_mark a b }
{
    if a.time < b.time || (a.time == b.time && a.number < b.number) {
        b
    } else {
        a
    }
}
