//! Numbers by bucket: for each bucket a chain of the numbers in it.

ghost use Rattle.std.specs.Prelude.{◌≡◌, ◌+◌, ◌<◌, ◌^◌, ℕ, List, [], ◌∷◌, ◌++◌, length, IfOk, OnOk};
ghost use Rattle.std.specs.Vec.{vec_capacity};
ghost use Rattle.order_search.specs.Chains.{AreChains};

use std::alloc::{AllocError, Global};

/// For each bucket the chain of the numbers in it, from the highest down. Each number is in one bucket. Both lists
/// store a number as 1 more, and 0 ends a chain.
#[derive(Drop)]
pub(crate) struct Chains {
    /// The first of each chain.
    pub(crate) heads: Vec<u32>,

    /// For each number the next one of its chain.
    pub(crate) links: Vec<u32>,
}

impl Chains {
    /// No numbers, and this many buckets.
    pub(crate) fn new(alloc: Global, buckets: usize) -> Result<Chains, AllocError>
        requires { 0 < buckets }
        ensures size { IfOk result (λ chains. length chains.heads.items ≡ buckets) }
        ensures chains { IfOk result (λ chains. AreChains [] chains.heads.items chains.links.items) }
    {
        let mut heads = Vec::new(alloc);
        heads.resize(buckets, 0)?;
        Ok(Chains {
            heads,
            links: Vec::new(alloc),
        })
    }

    /// Makes room for one more number; or an error if there is not enough memory for it, or if there are 2^32 - 1 numbers: no
    /// machine has the memory for that many nodes.
    pub(crate) fn reserve(&mut self) -> Result<(), AllocError>
        ensures heads { self.new.heads ≡ self.old.heads }
        ensures links { self.new.links.items ≡ self.old.links.items }
        ensures room { OnOk result (length self.new.links.items < vec_capacity self.new.links) }
        ensures few { OnOk result (length self.new.links.items + 1 < 2 ^ 32) }
    {
        // Once the numbers run out, more room is asked for than any memory has.
        let more = if self.links.len() < u32::MAX as usize {
            1
        } else {
            usize::MAX
        };
        self.links.reserve(more)
    }

    /// Adds the next number, which is in this bucket.
    #[tactic(auto, using(crate::proofs::Chaining::number_added))]
    pub(crate) fn add(&mut self, bucket: usize)
        requires inside { bucket < length self.old.heads.items }
        requires room { length self.old.links.items < vec_capacity self.old.links }
        requires few { length self.old.links.items + 1 < 2 ^ 32 }
        ensures size { length self.new.heads.items ≡ length self.old.heads.items }
        ensures chains { (buckets : List ℕ) → AreChains buckets self.old.heads.items self.old.links.items →
            AreChains (buckets ++ bucket ∷ []) self.new.heads.items self.new.links.items }
    {
        let top = (self.links.len() + 1) as u32;
        self.links.push_reserved(self.heads[bucket]);
        self.heads[bucket] = top;
    }
}
