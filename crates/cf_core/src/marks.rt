//! The marks: one word for each fact about the stages that is kept from one move to the next. Unlike the masks, which a caller
//! sees, they say nothing of whether the processor goes on, and they are never read outside this crate.

ghost use Rattle.std.specs.Prelude.{◌≡◌, ◌-◌, ◌<◌, ◌≤◌, false};
ghost use Rattle.cf_stages.specs.Words.{with_bit};
ghost use Rattle.cf_core.specs.Marks.{no_mark, marked};

/// The word with the bit of a stage set, or not set: bit i - 1 for stage i.
// No jump is taken, and the words of one stage have the place of the bit in common.
#[inline(always)]
#[tactic(auto, using(crate::proofs::Laid::laying))]
pub(crate) fn laid(word: u32, i: u32, set: bool) -> u32
    requires above { 0 < i }
    requires within { i ≤ 32 }
    ensures { result ≡ with_bit word (i - 1) set }
{
    word & !(1 << (i - 1)) | u32::from(set) << (i - 1)
}

/// The marks of one stage.
#[derive(Clone, Copy)]
pub(crate) struct StageMark {
    /// The instruction there owes a result.
    pub(crate) owes: bool,

    /// It must not climb on yet.
    pub(crate) stops: bool,

    /// No test in the row of Execute bars it.
    pub(crate) execute: bool,

    /// No test in the row of Launch bars it.
    pub(crate) launch: bool,

    /// No test in the row of Recover bars it.
    pub(crate) recover: bool,
}

impl StageMark {
    /// The marks of a stage without an instruction.
    #[inline(always)]
    pub(crate) fn of_none() -> StageMark
        ensures { result ≡ no_mark }
    {
        StageMark {
            owes: false,
            stops: false,
            execute: false,
            launch: false,
            recover: false,
        }
    }
}

/// The marks of all stages, a word for each kind: bit i - 1 for stage i.
#[derive(Clone, Copy)]
pub(crate) struct Marks {
    pub(crate) owes: u32,
    pub(crate) stops: u32,
    pub(crate) execute: u32,
    pub(crate) launch: u32,
    pub(crate) recover: u32,
}

impl Marks {
    /// The marks of an empty pipeline.
    pub(crate) fn none() -> Marks
        ensures { result ≡ record { owes = 0; stops = 0; execute = 0; launch = 0; recover = 0 } }
    {
        Marks {
            owes: 0,
            stops: 0,
            execute: 0,
            launch: 0,
            recover: 0,
        }
    }

    /// Replaces the marks of one stage.
    #[inline(always)]
    pub(crate) fn set(&mut self, i: u32, mark: StageMark)
        requires above { 0 < i }
        requires within { i ≤ 32 }
        ensures { self.new ≡ marked self.old i mark }
    {
        self.owes = laid(self.owes, i, mark.owes);
        self.stops = laid(self.stops, i, mark.stops);
        self.execute = laid(self.execute, i, mark.execute);
        self.launch = laid(self.launch, i, mark.launch);
        self.recover = laid(self.recover, i, mark.recover);
    }

    /// Marks that the instruction of the stage has sent what it owed.
    #[inline(always)]
    pub(crate) fn mark_sent(&mut self, i: u32)
        requires above { 0 < i }
        requires within { i ≤ 32 }
        ensures { self.new ≡ record self.old { owes = with_bit self.old.owes (i - 1) false } }
    {
        self.owes = laid(self.owes, i, false);
    }
}
