//! The masks: one word for each fact about the stages that a caller sees. Unlike the marks, from which they are read, they
//! have no move allowed once the program has ended, or the input or the output has failed.

ghost use Rattle.std.specs.Prelude.{◌≡◌, if◌then◌else◌, ◌&&◌, not, true};
ghost use Rattle.cf_semantics.specs.state.Options.{is_some};
ghost use Rattle.cf_core.specs.Masks.{masks_of};

use crate::counterflow::Core;
use crate::processor::Processor;

/// What is at each stage and what can be done there, a word for each fact: bit i - 1 for stage i.
#[derive(Clone, Copy, PartialEq, Eq)]
pub struct Masks {
    /// An instruction is there.
    pub passengers: u32,

    /// A result is there.
    pub packets: u32,

    /// Both are there, and have met.
    pub met: u32,

    /// The instruction there owes a result.
    pub owes: u32,

    /// The instruction there must not climb on yet.
    pub stops: u32,

    /// Execute is allowed there.
    pub execute: u32,

    /// Launch is allowed there.
    pub launch: u32,

    /// Recover is allowed there.
    pub recover: u32,
}

/// The word if the processor goes on, and no stage otherwise.
#[inline(always)]
fn where_on(goes_on: bool, word: u32) -> u32
    ensures { result ≡ (if goes_on then word else 0) }
{
    if goes_on { word } else { 0 }
}

impl Processor {
    /// Whether the program has not ended, and neither the input nor the output has failed.
    #[inline(always)]
    pub(crate) fn goes_on(&self) -> bool
        ensures { result ≡ (not (is_some self.now.state.ending) && not self.now.state.failed) }
    {
        self.ending.is_none() && !self.failed
    }
}

impl Core {
    /// The masks of the present state, given whether the processor goes on. They are read from marks that are kept up to date
    /// move by move, so that no call walks the stages.
    #[inline(always)]
    fn masks_if(&self, goes_on: bool) -> Masks
        requires { goes_on ≡ (not (is_some self.now.state.ending) && not self.now.state.failed) }
        ensures { result ≡ masks_of self.now.plan self.now.state }
    {
        let processor = &self.processor;
        let marks = self.marks;
        Masks {
            passengers: processor.stages.passengers(),
            packets: processor.stages.packets(),
            met: processor.stages.met(),
            owes: marks.owes,
            stops: marks.stops,
            execute: where_on(goes_on, marks.execute),
            launch: where_on(goes_on, marks.launch),
            recover: where_on(goes_on, marks.recover),
        }
    }

    /// The masks of the present state. No call walks the stages.
    #[inline(always)]
    pub fn masks(&self) -> Masks
        ensures { result ≡ masks_of self.now.plan self.now.state }
    {
        self.masks_if(self.processor.goes_on())
    }

    /// The masks of a processor that is known to go on: the program has not ended, and neither the input nor the output has
    /// failed. It is not tested again.
    #[inline(always)]
    pub fn open_masks(&self) -> Masks
        requires { (not (is_some self.now.state.ending) && not self.now.state.failed) ≡ true }
        ensures { result ≡ masks_of self.now.plan self.now.state }
    {
        self.masks_if(true)
    }
}
