//! A layout as it was requested.

use crate::Listed;
use rv_inst::Class;

/// A siding as it was requested.
#[derive(Drop)]
pub struct Siding {
    /// The classes that go through it, in any order.
    pub classes: Listed<Class>,
    /// The stage from which it launches.
    pub launch: i64,
    /// The stage at which it recovers.
    pub recover: i64,
    /// How many cells it has.
    pub cells: i64,
}

/// A layout as it was requested, not tested.
#[derive(Drop)]
pub struct Parts {
    /// How many stages the pipeline has.
    pub stages: i64,
    /// How many entries the request lane has.
    pub lane: i64,
    /// Whether there is a register cache.
    pub cache: bool,
    /// The units: for a class, the stages that have one, in any order.
    pub units: Listed<(Class, Listed<i64>)>,
    /// The sidings.
    pub sidings: Listed<Siding>,
}
