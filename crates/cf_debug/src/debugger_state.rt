//! The debugger's state, as one value.

use crate::ring::Ring;
use cf_core::Core;
use cf_index::Candidates;

/// The debugger's state, on which commands work: the processor, a buffer for the candidates of a pick, the ring of
/// moves that can be taken back, and the address at which `auto` stops, if there is one.
#[derive(Drop)]
pub(crate) struct DebuggerState<'a> {
    pub(crate) core: &'a mut Core,
    pub(crate) candidates: &'a mut Candidates,
    pub(crate) ring: &'a mut Ring,
    pub(crate) stop: &'a mut Option<u32>,
}
