//! The register cache at the bottom: values that a later instruction need not request.

ghost use Rattle.std.specs.Prelude.{◌≡◌, ◌≢◌, ◌<◌, Some, None, slice_get, slice_set};
ghost use Rattle.cf_semantics.specs.state.Passengers.{cached as kept_value, forgets, cleared};

use crate::ends::Ends;

impl Ends {
    /// The cached value of the register, if there is one.
    #[inline(always)]
    #[tactic(auto, using(crate::proofs::Keeping::reading))]
    pub fn cached(&self, r: u8) -> Option<u32>
        requires { r < 32 }
        ensures value { result ≡ kept_value self.now.cache r }
        ensures zero { r ≡ 0 → result ≡ None }
    {
        self.cache[r as usize]
    }

    /// Caches the value of a register other than x0.
    #[inline(always)]
    pub fn keep(&mut self, r: u8, value: u32)
        requires register { r < 32 }
        requires other { r ≢ 0 }
        ensures ends { self.new ≡ record self.old { cache = slice_set self.old.cache r (Some value) } }
        ensures kept { kept_value self.new.cache r ≡ Some value }
    {
        self.cache[r as usize] = Some(value);
    }

    /// Forgets the cached value of the register.
    #[inline(always)]
    pub fn forget(&mut self, r: u8)
        requires { r < 32 }
        ensures ends { self.new ≡ record self.old { cache = forgets (Some r) self.old.cache } }
        ensures forgotten { kept_value self.new.cache r ≡ None }
    {
        self.cache[r as usize] = None;
    }

    /// Empties the cache.
    #[inline(always)]
    #[tactic(auto, using(crate::proofs::Keeping::clearing))]
    pub fn clear(&mut self)
        ensures { self.new ≡ record self.old { cache = cleared self.old.cache } }
    {
        self.cache = [None; 32];
    }

    /// The cached value of each register, if there is one; there is never one for x0.
    #[inline(always)]
    pub fn cache(&self) -> [Option<u32>; 32]
        ensures cache { result ≡ self.now.cache }
        ensures zero { slice_get result 0 ≡ Some None }
    {
        self.cache
    }

    /// Replaces the contents of the cache.
    #[inline(always)]
    pub fn set_cache(&mut self, cache: [Option<u32>; 32])
        requires { slice_get cache 0 ≡ Some None }
        ensures { self.new ≡ record self.old { cache = cache } }
    {
        self.cache = cache;
    }
}
