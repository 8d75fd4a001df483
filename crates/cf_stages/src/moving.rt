//! Instructions move up, and results down, by one stage.

ghost use Rattle.std.specs.Prelude.{◌≡◌, ◌<◌, ◌≤◌, IsTrue, length};
ghost use Rattle.cf_stages.specs.Changes.{climbs, falls, cells_climbed, cells_fallen};
ghost use Rattle.cf_stages.specs.Contents.{contents};

use crate::stages::Stages;

impl Stages {
    /// Whether the stage has an instruction that can move up: it has met the result of its stage, if there is one, and
    /// there is a stage above without an instruction.
    #[inline(always)]
    #[tactic(auto, unfolding(crate::specs::Changes::climbs))]
    pub fn may_climb(&self, i: u32) -> bool
        requires above { 0 < i }
        requires within { i ≤ length self.now }
        ensures { result ≡ climbs self.now i }
    {
        if self.count() == i {
            return false;
        }
        self.has_passenger(i) && !self.is_full(i) && !self.has_passenger(i + 1)
    }

    /// Moves the instruction of the stage into the one above, where it has met nothing.
    #[inline(always)]
    #[tactic(auto, using(crate::proofs::Order::climbing, crate::proofs::Neighbours::climbing, crate::proofs::Kept::counting))]
    pub fn climb(&mut self, i: u32)
        requires { IsTrue (climbs self.old i) }
        ensures stages { self.new ≡ cells_climbed self.old i }
        ensures order { contents self.new ≡ contents self.old }
        ensures count { length self.new ≡ length self.old }
    {
        let _ = &self.passengers;
        self.lift(i, i + 1);
    }

    /// Whether the stage has a result that can move down: it has met the instruction of its stage, if there is one, and
    /// there is a stage below without a result.
    #[inline(always)]
    #[tactic(auto, unfolding(crate::specs::Changes::falls))]
    pub fn may_fall(&self, i: u32) -> bool
        requires above { 0 < i }
        requires within { i ≤ length self.now }
        ensures { result ≡ falls self.now i }
    {
        if i == 1 {
            return false;
        }
        self.has_packet(i) && !self.is_full(i) && !self.has_packet(i - 1)
    }

    /// Moves the result of the stage into the one below, where it has met nothing.
    #[inline(always)]
    #[tactic(auto, using(crate::proofs::Order::falling, crate::proofs::Neighbours::falling))]
    pub fn fall(&mut self, i: u32)
        requires { IsTrue (falls self.old i) }
        ensures stages { self.new ≡ cells_fallen self.old i }
        ensures order { contents self.new ≡ contents self.old }
        ensures count { length self.new ≡ length self.old }
    {
        self.drop_packet(i);
    }
}
