//! Nodes without duplicates, each with its index as its number.

ghost use Rattle.std.specs.Prelude.{◌≡◌, ◌↔◌, ◌<◌, [], ◌∷◌, length, map, slice_get, Some, IfOk, IsTrue, MatchOption};
ghost use Rattle.std.specs.List.{Contains};
ghost use Rattle.order_search.specs.Chains.{AreChained, AreChains, bucket_of as bucket_of_node, bucket_with, hash_of as hash_by};
ghost use Rattle.order_search.specs.Numbers.{AddsNode, node_at};

use crate::chains::Chains;
use crate::rows::Rows;
use std::alloc::{AllocError, Global};
use std::hash::{FoldHasher, Hasher};
use std::marker::Model;

/// How many buckets an empty list has.
const FEWEST_BUCKETS: usize = 1024;

/// Nodes in the order in which they were added, with their hashes. The first has the number 0. The nodes are stored one
/// after another, and a node is searched for among those whose hashes are in its bucket.
#[derive(Drop)]
pub(crate) struct NodeList {
    nodes: Rows<u8>,
    hashes: Vec<u32>,
    chains: Chains,
}

impl Model for NodeList {
    ghost use Rattle.std.specs.Prelude.{ℕ, List};
    ghost use Rattle.order_search.specs.Chains.{AreChained};

    ghost Value = { List (List ℕ) };

    ghost view = { λ list. list.nodes };

    ghost invariant = { λ list. AreChained list.nodes list.hashes.items list.chains.heads.items list.chains.links.items };
}

/// Where a node is in a list, and whether it has just been added.
#[derive(Drop)]
pub(crate) struct Place {
    pub(crate) number: usize,
    pub(crate) is_new: bool,
}

/// The hash of a node.
#[tactic(auto, unfolding(crate::specs::Chains::hash_of))]
fn hash_of(node: &[u8]) -> u32
    ensures { result ≡ hash_by node.now }
{
    let mut hasher = FoldHasher::default();
    hasher.write(node);
    (hasher.finish() % 0x1_0000_0000) as u32
}

/// The bucket of a node with this hash, of this many buckets.
fn bucket_of(hash: u32, buckets: usize) -> usize
    requires { 0 < buckets }
    ensures bucket { result ≡ bucket_with buckets hash }
    ensures inside { result < buckets }
{
    hash as usize % buckets
}

/// Whether the two are the same node.
fn is_same(node: &[u8], other: &[u8]) -> bool
    ensures { IsTrue result ↔ (node.now ≡ other.now) }
{
    node == other
}

/// Whether the node with a number is this one, which has this hash. One with another hash is not, and then its bytes,
/// which are far away in memory, are not read.
#[inline(always)]
#[tactic(auto, using(crate::proofs::Chaining::telling))]
fn is_there(nodes: &Rows<u8>, hashes: &[u32], number: usize, node: &[u8], hash: u32) -> bool
    requires inside { number < length nodes.now }
    requires hashes { hashes.now ≡ map hash_by nodes.now }
    requires hash { hash ≡ hash_by node.now }
    ensures { IsTrue result ↔ (node_at nodes.now number ≡ node.now) }
{
    hashes[number] == hash && is_same(nodes.row(number), node)
}

/// The number of the node, which has this hash and is in this bucket, if it is in the list.
#[tactic(auto, using(crate::proofs::Chaining::seeking))]
fn find(
    nodes: &Rows<u8>,
    hashes: &[u32],
    chains: &Chains,
    node: &[u8],
    hash: u32,
    bucket: usize,
) -> Option<usize>
    requires chains { AreChained nodes.now hashes.now chains.now.heads.items chains.now.links.items }
    requires hash { hash ≡ hash_by node.now }
    requires bucket { bucket ≡ bucket_of_node (length chains.now.heads.items) node.now }
    requires inside { bucket < length chains.now.heads.items }
    ensures { MatchOption result (¬ Contains nodes.now node.now) (λ number. (number < length nodes.now) × (node_at nodes.now number ≡ node.now)) }
{
    let mut top = chains.heads[bucket];
    while top > 0 {
        let number = (top - 1) as usize;
        if is_there(nodes, hashes, number, node, hash) {
            return Some(number);
        }
        top = chains.links[number];
    }
    None
}

/// The chains of nodes with these hashes in this many buckets.
#[tactic(auto, using(crate::proofs::Chaining::chaining))]
fn chained(alloc: Global, hashes: &[u32], buckets: usize) -> Result<Chains, AllocError>
    requires { 0 < buckets }
    ensures size { IfOk result (λ chains. length chains.heads.items ≡ buckets) }
    ensures chains { IfOk result (λ chains. AreChains (map (bucket_with buckets) hashes.now) chains.heads.items chains.links.items) }
{
    let mut chains = Chains::new(alloc, buckets)?;
    for hash in hashes {
        chains.reserve()?;
        chains.add(bucket_of(*hash, buckets));
    }
    Ok(chains)
}

impl NodeList {
    /// No nodes.
    pub(crate) fn new(alloc: Global) -> Result<NodeList, AllocError>
        ensures { IfOk result (λ list. list ≡ []) }
    {
        Ok(NodeList {
            nodes: Rows::new(alloc),
            hashes: Vec::new(alloc),
            chains: Chains::new(alloc, FEWEST_BUCKETS)?,
        })
    }

    /// How many nodes there are.
    pub(crate) fn len(&self) -> usize
        ensures { result ≡ length self.now }
    {
        self.nodes.len()
    }

    /// The node with a number.
    pub(crate) fn get(&self, number: usize) -> &[u8]
        requires { number < length self.now }
        ensures { slice_get self.now number ≡ Some result.now }
    {
        self.nodes.row(number)
    }

    /// Doubles the number of buckets if there are no more buckets than nodes.
    #[tactic(auto, using(crate::proofs::Chaining::resized))]
    fn spread(&mut self, alloc: Global) -> Result<(), AllocError>
        ensures { self.new ≡ self.old }
    {
        let buckets = self.chains.heads.len();
        if self.nodes.len() < buckets {
            return Ok(());
        }
        self.chains = chained(alloc, &self.hashes, 2 * buckets)?;
        Ok(())
    }

    /// Adds a node, unless it is already there.
    #[tactic(auto, using(crate::proofs::Chaining::node_chained))]
    pub(crate) fn add(&mut self, alloc: Global, node: &[u8]) -> Result<Place, AllocError>
        ensures { IfOk result (λ place. AddsNode self.old self.new node.now place.number place.is_new) }
    {
        self.spread(alloc)?;
        let hash = hash_of(node);
        let bucket = bucket_of(hash, self.chains.heads.len());
        if let Some(number) = find(&self.nodes, &self.hashes, &self.chains, node, hash, bucket) {
            return Ok(Place {
                number,
                is_new: false,
            });
        }
        let number = self.nodes.len();
        self.chains.reserve()?;
        self.hashes.reserve(1)?;
        self.nodes.push(node)?;
        self.hashes.push_reserved(hash);
        self.chains.add(bucket);
        Ok(Place {
            number,
            is_new: true,
        })
    }
}
