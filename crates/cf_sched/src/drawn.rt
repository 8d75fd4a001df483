//! The random policy.

ghost use Rattle.std.specs.Prelude.{◌≡◌, ◌<◌, Some, length, slice_get};
ghost use Rattle.rand_pcg.specs.Pcg.{pcg32};
ghost use Rattle.cf_sched.specs.Paces.{offers};
ghost use Rattle.cf_sched.specs.Policies.{drawn_from_seed, drawn_on, drawn_pick};

use crate::pace::Pace;
use crate::policy::Policy;
use cf_bind::Move;
use cf_core::Core;
use cf_index::{Candidates, PackedCandidates};
use rand_core::utils::NextWord;
use rand_pcg::Lcg64Xsh32;
use std::marker::Model;

/// Picks by the next 32-bit word of a PCG generator, modulo the number of candidates. Contracts see it as the
/// generator.
#[derive(Drop)]
pub struct Drawn {
    generator: Lcg64Xsh32,
}

impl Model for Drawn {
    ghost use Rattle.rand_pcg.specs.Lcg.{Lcg};

    ghost Value = { Lcg };

    ghost view = { λ d. d.generator };
}

impl Drawn {
    /// A generator that begins with the seed, in stream 1.
    pub fn new(seed: u32) -> Drawn
        ensures { result ≡ drawn_from_seed seed }
    {
        Drawn {
            generator: Lcg64Xsh32::new(seed as u64, 1),
        }
    }

    /// The generator's next word.
    #[inline(always)]
    pub fn draw(&mut self) -> u32
        ensures { (result, self.new) ≡ pcg32 self.old }
    {
        self.generator.next_word()
    }

    /// Picks one of these candidates.
    #[inline(always)]
    pub fn pick_packed(&mut self, packed: &PackedCandidates) -> Move
        requires { 0 < length packed.now }
        ensures choice { Some result ≡ slice_get packed.now (drawn_pick self.old packed.now) }
        ensures onward { self.new ≡ drawn_on self.old }
    {
        packed.pick(self.draw() as usize % packed.len())
    }

    /// Picks one of the moves that a processor offers, from the list of all.
    #[inline(always)]
    fn choose_of_all(&mut self, core: &Core, pace: &Pace) -> Move
        requires { 0 < length (offers pace.now core.now.plan core.now.state) }
        ensures choice { Some result ≡ slice_get (offers pace.now core.now.plan core.now.state)
            (drawn_pick self.old (offers pace.now core.now.plan core.now.state)) }
        ensures onward { self.new ≡ drawn_on self.old }
    {
        let candidates = Candidates::of(core, pace.rule(), pace.held());
        let place = self.pick(&candidates);
        candidates.pick(place)
    }
}

impl Policy for Drawn {
    ghost picked = { drawn_pick };

    ghost onward = { λ g moves. drawn_on g };

    #[inline(always)]
    fn pick(&mut self, candidates: &Candidates) -> usize {
        self.draw() as usize % candidates.len()
    }

    #[inline(always)]
    fn choose(&mut self, core: &Core, _candidates: &mut Candidates, pace: &Pace) -> Move {
        match PackedCandidates::of(core, pace.rule(), pace.held()) {
            Some(packed) => self.pick_packed(&packed),
            None => self.choose_of_all(core, pace),
        }
    }
}
