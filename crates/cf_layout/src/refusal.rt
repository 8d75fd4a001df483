//! Why a layout is refused.

use rv_inst::Class;

/// Why a layout is refused.
#[derive(Clone, Copy, PartialEq, Eq)]
pub enum LayoutErr {
    /// The pipeline does not have 2 to 32 stages: the number requested.
    StagesOutOfRange(i64),
    /// The request lane does not have 2 to 64 entries: the number requested.
    LaneOutOfRange(i64),
    /// The class has a unit or a siding at a stage that the pipeline does not have.
    StageOutOfRange(Class, i64),
    /// The class is listed in two units, in two sidings, in a unit and a siding, or twice in one siding.
    ClassTwice(Class),
    /// The class has neither units nor a siding.
    MissingUnit(Class),
    /// The class is listed with no stage.
    EmptyUnit(Class),
    /// Memory is listed among the units.
    MemoryNotSiding,
    /// Memory shares its siding with another class.
    MemorySharesSiding,
    /// A siding's launch stage is not below its recovery stage: the launch stage, then the recovery stage.
    SidingOrder(i64, i64),
    /// A siding does not have 1 to 8 cells: the number requested.
    CellsOutOfRange(i64),
    /// The class turns control at the first of these stages; loads and stores are launched from the second, which is
    /// lower.
    ControlAboveMemory(Class, u32, u32),
    /// There are more than 8 sidings: their number, capped at the maximum `u32`.
    TooManySidings(u32),
    /// The siding at this index has no class.
    EmptySiding(u32),
}
