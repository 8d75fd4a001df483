//! How many routes lead from the first node to the ends.

ghost use Rattle.std.specs.Prelude.{◌≡◌, ◌<◌, ℕ, length, true, IfOk, IfSome, OnOk};
ghost use Rattle.std.specs.List.{All};
ghost use Rattle.order_search.specs.Counting.{IsSettled, IsStuckFrom, SettlesCount, SettlesFrom, Sweeps, count_of as count_from, is_open_count as is_unknown, counted_orders, plus_count as sum_of, total_count as sum_over};
ghost use Rattle.order_search.specs.declared.orders.Count.TheVariants as known;

use crate::rows::Rows;
use std::alloc::{AllocError, Global};

/// How many routes lead from a node to the ends.
#[derive(Clone, Copy, PartialEq, Eq)]
pub enum Orders {
    /// This many routes.
    Exactly(u64),

    /// More than fit into a `u64`.
    More,

    /// Paths of any number of edges lead from the node.
    Endless,
}

/// How many routes lead from a node to the ends, if this is known.
#[derive(Clone, Copy)]
enum Count {
    /// It is not known.
    Open,

    /// This many routes.
    Exactly(u64),

    /// More than fit into a `u64`.
    More,
}

impl Count {
    fn is_open(&self) -> bool
        ensures { result ≡ is_unknown self.now }
    {
        match self {
            Count::Open => true,
            Count::Exactly(_) | Count::More => false,
        }
    }

    /// The sum of a count and a number.
    fn plus_number(self, more: u64) -> Count
        ensures { result ≡ sum_of self (known.Exactly more) }
    {
        match self {
            Count::Open => Count::Open,
            Count::Exactly(number) => match number.checked_add(more) {
                Some(sum) => Count::Exactly(sum),
                None => Count::More,
            },
            Count::More => Count::More,
        }
    }

    /// The sum of two counts, which is known if both are.
    fn plus(self, other: Count) -> Count
        ensures { result ≡ sum_of self other }
    {
        match other {
            Count::Open => Count::Open,
            Count::Exactly(more) => self.plus_number(more),
            Count::More => match self {
                Count::Open => Count::Open,
                Count::Exactly(_) | Count::More => Count::More,
            },
        }
    }

    /// The answer of this count, when nothing more can be known.
    fn orders(self) -> Orders
        ensures { result ≡ counted_orders self }
    {
        match self {
            Count::Open => Orders::Endless,
            Count::Exactly(number) => Orders::Exactly(number),
            Count::More => Orders::More,
        }
    }
}

/// The sum of the counts of some nodes.
fn total(counts: &[Count], row: &[u32]) -> Count
    requires { All (λ to. to < length counts.now) row.now }
    ensures { result ≡ sum_over counts.now row.now }
{
    let mut sum = Count::Exactly(0);
    for to in row {
        sum = sum.plus(counts[*to as usize]);
    }
    sum
}

/// The count of a node whose edges lead to some nodes: 1 if there are none.
fn count_of(counts: &[Count], row: &[u32]) -> Count
    requires { All (λ to. to < length counts.now) row.now }
    ensures { result ≡ count_from counts.now row.now }
{
    if row.is_empty() {
        Count::Exactly(1)
    } else {
        total(counts, row)
    }
}

/// Counts the routes from a node, if those from all nodes to which its edges lead are counted. Returns whether it did.
fn settle(rows: &Rows<u32>, counts: &mut [Count], number: usize) -> bool
    requires inside { number < length rows.now }
    requires as_many { length counts.old ≡ length rows.now }
    requires within { All (λ row. All (λ to. to < length rows.now) row) rows.now }
    ensures { SettlesCount rows.now counts.old counts.new number result }
{
    if !counts[number].is_open() {
        return false;
    }
    let count = count_of(counts, rows.row(number));
    if count.is_open() {
        return false;
    }
    counts[number] = count;
    true
}

/// The first of some nodes whose routes are not counted.
fn first_open(counts: &[Count], row: &[u32]) -> Option<u32>
    requires { All (λ to. to < length counts.now) row.now }
    ensures { IfSome result (λ to. to < length counts.now) }
{
    for to in row {
        if counts[*to as usize].is_open() {
            return Some(*to);
        }
    }
    None
}

/// Takes the node that waits last, and counts the routes from it; where those from a node to which one of its edges leads
/// are not counted, both wait instead. After an error some of the nodes that waited no longer do.
fn settle_last(
    rows: &Rows<u32>,
    counts: &mut [Count],
    waiting: &mut Vec<u32>,
) -> Result<(), AllocError>
    requires as_many { length counts.old ≡ length rows.now }
    requires within { All (λ row. All (λ to. to < length rows.now) row) rows.now }
    requires waiting { All (λ number. number < length rows.now) waiting.old.items }
    ensures as_many { length counts.new ≡ length rows.now }
    ensures waiting { All (λ number. number < length rows.now) waiting.new.items }
    ensures swept { Sweeps rows.now counts.old counts.new }
{
    let Some(number) = waiting.pop() else {
        return Ok(());
    };
    if let Some(to) = first_open(counts, rows.row(number as usize)) {
        waiting.push(number)?;
        waiting.push(to)?;
        return Ok(());
    }
    settle(rows, counts, number as usize);
    Ok(())
}

/// Counts the routes from the first node, and on the way to the ends those from each node that its paths pass: two steps a
/// node, where no path comes back to a node. Where one does, not all are counted.
fn settle_along_paths(
    alloc: Global,
    rows: &Rows<u32>,
    counts: &mut [Count],
) -> Result<(), AllocError>
    requires some { 0 < length rows.now }
    requires as_many { length counts.old ≡ length rows.now }
    requires within { All (λ row. All (λ to. to < length rows.now) row) rows.now }
    ensures as_many { length counts.new ≡ length rows.now }
    ensures swept { Sweeps rows.now counts.old counts.new }
{
    let mut waiting = Vec::new(alloc);
    waiting.push(0)?;
    for _ in 0..rows.len().saturating_mul(2) {
        settle_last(rows, counts, &mut waiting)?;
    }
    Ok(())
}

/// Visits the nodes from the last to the first, and counts the routes where it can. Returns whether it counted any.
fn settle_all(rows: &Rows<u32>, counts: &mut [Count]) -> bool
    requires as_many { length counts.old ≡ length rows.now }
    requires within { All (λ row. All (λ to. to < length rows.now) row) rows.now }
    ensures { SettlesFrom rows.now counts.old counts.new 0 result }
{
    let mut found = false;
    for number in (0..rows.len()).rev() {
        found |= settle(rows, counts, number);
    }
    found
}

/// Goes through the nodes until no more routes can be counted.
fn settle_in_turns(rows: &Rows<u32>, counts: &mut [Count])
    requires as_many { length counts.old ≡ length rows.now }
    requires within { All (λ row. All (λ to. to < length rows.now) row) rows.now }
    ensures swept { Sweeps rows.now counts.old counts.new }
    ensures stuck { IsStuckFrom rows.now counts.new 0 }
{
    'turns: while settle_all(rows, counts) {}
}

/// Counts the routes from the nodes until no more can be counted: along the paths first, and then in turns what these
/// leave.
fn settle_nodes(alloc: Global, rows: &Rows<u32>, counts: &mut [Count]) -> Result<(), AllocError>
    requires some { 0 < length rows.now }
    requires as_many { length counts.old ≡ length rows.now }
    requires within { All (λ row. All (λ to. to < length rows.now) row) rows.now }
    ensures swept { OnOk result (Sweeps rows.now counts.old counts.new) }
    ensures stuck { OnOk result (IsStuckFrom rows.now counts.new 0) }
{
    settle_along_paths(alloc, rows, counts)?;
    settle_in_turns(rows, counts);
    Ok(())
}

/// How many routes lead from the first node to the ends.
pub(crate) fn count_orders(alloc: Global, rows: &Rows<u32>) -> Result<Orders, AllocError>
    requires some { 0 < length rows.now }
    requires within { All (λ row. All (λ to. to < length rows.now) row) rows.now }
    ensures { IfOk result (IsSettled rows.now) }
{
    let mut counts = Vec::new(alloc);
    counts.resize(rows.len(), Count::Open)?;
    let counts = counts.as_mut_slice();
    settle_nodes(alloc, rows, counts)?;
    Ok(counts[0].orders())
}
