//! The order of all moves, part by part.

ghost use Rattle.std.specs.Prelude.{◌≡◌};
ghost use Rattle.report_closing.specs.Parts.{move_at};

use cf_bind::{Guess, Move};

/// The kinds of moves that are made at a stage.
#[derive(Clone, Copy)]
pub(crate) enum StageMove {
    Climb,
    Fall,
    Meet,
    Execute,
    Send,
    Launch,
    Recover,
}

/// A part of the order of all moves.
#[derive(Clone, Copy)]
pub(crate) enum ClosingPart {
    /// One move.
    One(Move),
    /// The moves of a kind at each stage.
    Stages(StageMove),
    /// The moves from each cell of each siding.
    Slides,
}

/// All moves except an issue with an address.
pub(crate) const PARTS: [ClosingPart; 16] = [
    ClosingPart::One(Move::Issue(Guess::Next)),
    ClosingPart::One(Move::Issue(Guess::Taken)),
    ClosingPart::One(Move::Issue(Guess::Wait)),
    ClosingPart::One(Move::Emit),
    ClosingPart::Stages(StageMove::Climb),
    ClosingPart::Stages(StageMove::Fall),
    ClosingPart::Stages(StageMove::Meet),
    ClosingPart::Stages(StageMove::Execute),
    ClosingPart::Stages(StageMove::Send),
    ClosingPart::Stages(StageMove::Launch),
    ClosingPart::Slides,
    ClosingPart::One(Move::Access),
    ClosingPart::Stages(StageMove::Recover),
    ClosingPart::One(Move::Leave),
    ClosingPart::One(Move::Exit),
    ClosingPart::One(Move::Serve),
];

impl StageMove {
    /// The move of this kind at a stage.
    pub(crate) fn at(self, stage: u32) -> Move
        ensures { result ≡ move_at self stage }
    {
        match self {
            StageMove::Climb => Move::Climb(stage),
            StageMove::Fall => Move::Fall(stage),
            StageMove::Meet => Move::Meet(stage),
            StageMove::Execute => Move::Execute(stage),
            StageMove::Send => Move::Send(stage),
            StageMove::Launch => Move::Launch(stage),
            StageMove::Recover => Move::Recover(stage),
        }
    }
}
