//! The moves of a round.

ghost use Rattle.std.specs.Prelude.{◌≡◌, ◌<◌, ◌++◌, ◌∷◌, [], Some, length, slice_get};

use cf_bind::Move;
use std::marker::Model;

/// The moves of a round, in the order in which they were taken: at most 128, of which a round of candidates has at most
/// 96, since each uses a stage or a cell of a siding of its own.
#[derive(Drop)]
pub struct RoundSet {
    len: u32,
    moves: [Move; 128],
}

impl Model for RoundSet {
    ghost use Rattle.std.specs.Prelude.{List, take};
    ghost use Rattle.cf_rounds.specs.Rounds.{IsHeld};
    ghost use Rattle.cf_bind.specs.declared.moves.Move.{Move};

    ghost Value = { List Move };

    ghost view = { λ set. take set.len set.moves };

    ghost invariant = { λ set. IsHeld set.len set.moves };
}

impl RoundSet {
    /// An empty set.
    pub fn new() -> RoundSet
        ensures { result ≡ [] }
    {
        RoundSet {
            len: 0,
            moves: [Move::Emit; 128],
        }
    }

    /// How many moves there are.
    pub fn len(&self) -> u32
        ensures { result ≡ length self.now }
    {
        self.len
    }

    /// The move at this index, counted from 0.
    pub fn get(&self, place: u32) -> Move
        requires { place < length self.now }
        ensures { Some result ≡ slice_get self.now place }
    {
        self.moves[place as usize]
    }

    /// Removes all moves.
    pub(crate) fn clear(&mut self)
        ensures { self.new ≡ [] }
    {
        self.len = 0;
    }

    /// Appends a move.
    pub(crate) fn push(&mut self, mv: Move)
        requires { length self.old < 128 }
        ensures { self.new ≡ self.old ++ mv ∷ [] }
    {
        self.moves[self.len as usize] = mv;
        self.len += 1;
    }
}
