//! Why a comparison stops.

/// Why not every layout has a line.
pub enum Stop {
    /// Memory was refused, before the first move of the run on the layout with this index. All lines of those before it
    /// were written.
    NoMemory(usize),
    /// The report failed.
    Failed,
}
