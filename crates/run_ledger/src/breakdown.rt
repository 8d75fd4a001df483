//! What the time of a run consists of.

use cf_layout::Layout;

/// What the time of a run consists of. All times are in ticks. The times of each stage in use, waiting and empty add up
/// to the time of the run.
/// the time of the run.
#[derive(Clone, Copy)]
pub struct Breakdown {
    /// The layout of the processor.
    pub layout: Layout,

    /// How long each stage was in use, by its number.
    pub stages: [u64; 33],

    /// How long each stage held an instruction or a result while no move used it, by its number.
    pub waiting: [u64; 33],

    /// How long each stage held nothing while no move used it, by its number.
    pub empty: [u64; 33],

    /// How long the cells of each siding were in use, by its number; a move that uses two of them counts once.
    pub sidings: [u64; 8],

    /// How many moves of each kind were made, in the order of `Move`.
    pub moves: [u64; 14],

    /// How many instructions of each class retired: first the classes that are computed, in the order of layout files,
    /// then serial, free.
    pub retired: [u64; 11],

    /// How many ticks these instructions took in total, each from the start of its Issue to the end of its Leave.
    pub latencies: [u128; 11],

    /// How many moves of each kind are on the chain that ends with the last of the moves that finish latest.
    pub chain: [u64; 14],
}
