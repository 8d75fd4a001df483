//! The lane of requests to the register file.

ghost use Rattle.std.specs.Prelude.{◌≡◌, ◌-◌, ◌<◌, ◌≤◌, [], ◌∷◌, ◌++◌, drop, length, slice_index, take};
ghost use Rattle.cf_ends.specs.Ends.{answer_to};

use crate::ends::Ends;
use cf_bind::Packet;

impl Ends {
    /// How many requests there are: at most the lane's capacity, which is at most 64.
    #[inline(always)]
    pub fn lane_len(&self) -> u32
        ensures count { result ≡ length self.now.lane }
        ensures room { result ≤ self.now.room }
        ensures most { self.now.room ≤ 64 }
    {
        self.lane.len() as u32
    }

    /// The register of a request; index 0 is the one to be answered next.
    #[inline(always)]
    pub fn lane_at(&self, j: u32) -> u8
        requires { j < length self.now.lane }
        ensures request { result ≡ slice_index self.now.lane j }
        ensures register { result < 32 }
    {
        match self.lane.get(j as usize) {
            Some(r) => *r,
            None => unreachable!(),
        }
    }

    /// Requests the register, after all other requests.
    #[inline(always)]
    #[tactic(auto, using(crate::proofs::Requests::requesting))]
    pub fn request(&mut self, r: u8)
        requires register { r < 32 }
        requires room { length self.old.lane < self.old.room }
        ensures { self.new ≡ record self.old { lane = self.old.lane ++ r ∷ [] } }
    {
        self.lane.push_back(r);
    }

    /// Removes the first request, and returns the value of its register as a result.
    #[inline(always)]
    pub fn answer(&mut self) -> Packet
        requires { 0 < length self.old.lane }
        ensures packet { result ≡ answer_to self.old.regs (slice_index self.old.lane 0) }
        ensures ends { self.new ≡ record self.old { lane = drop 1 self.old.lane } }
    {
        match self.lane.pop_front() {
            Some(reg) => Packet::Value {
                reg,
                value: self.reg(reg),
            },
            None => unreachable!(),
        }
    }

    /// Removes the last request: the inverse of `request`.
    #[inline(always)]
    pub fn unrequest(&mut self) -> u8
        requires { 0 < length self.old.lane }
        ensures lane { self.old.lane ≡ self.new.lane ++ result ∷ [] }
        ensures rest { self.new ≡ record self.old { lane = self.new.lane } }
        ensures register { result < 32 }
    {
        match self.lane.pop_back() {
            Some(r) => r,
            None => unreachable!(),
        }
    }

    /// Requests the register, before all other requests: the inverse of `answer`.
    #[inline(always)]
    pub fn reask(&mut self, r: u8)
        requires register { r < 32 }
        requires room { length self.old.lane < self.old.room }
        ensures { self.new ≡ record self.old { lane = r ∷ self.old.lane } }
    {
        self.lane.push_front(r);
    }
}
