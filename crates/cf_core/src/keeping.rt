//! The moves that leave the marks of all stages as they are.

ghost use Rattle.std.specs.Prelude.{◌≡◌, ◌<◌, ◌≤◌, None};
ghost use Rattle.cf_bind.specs.declared.moves.Move.TheVariants as mv;
ghost use Rattle.cf_semantics.specs.moves.Bars.{row_bar};
ghost use Rattle.cf_core.specs.Marks.{row_allows, marks_of, keeps_marks as keeps_all};
ghost use Rattle.cf_core.specs.Masks.{stops_there};
ghost use Rattle.cf_core.specs.Processors.{IsProcessor};

use crate::marks::Marks;
use crate::processor::Processor;
use cf_stages::has_bit;

impl Processor {
    /// Whether no test in the row of Launch bars the stage, by the marks.
    #[inline(always)]
    #[tactic(auto, using(crate::proofs::StillMarks::launch_bits))]
    fn launches_at(&self, marks: Marks, i: u32) -> bool
        requires above { 0 < i }
        requires within { i ≤ self.now.plan.stages }
        requires marks { marks ≡ marks_of self.now.plan self.now.state }
        ensures { result ≡ row_allows self.now.plan self.now.state (mv.Launch i) }
    {
        self.know_stages();
        has_bit(marks.launch, i)
    }

    /// Whether the instruction of the stage must not climb on yet, by the marks.
    #[inline(always)]
    #[tactic(auto, using(crate::proofs::StillMarks::stop_bits))]
    fn stops_by(&self, marks: Marks, i: u32) -> bool
        requires above { 0 < i }
        requires within { i ≤ self.now.plan.stages }
        requires marks { marks ≡ marks_of self.now.plan self.now.state }
        ensures { result ≡ stops_there self.now.plan self.now.state i }
    {
        self.know_stages();
        has_bit(marks.stops, i)
    }

    /// Whether an allowed Meet leaves the marks of all stages as they are: the instruction has nothing left to do, or still waits for
    /// another value, or waits for none and may climb on.
    #[inline(always)]
    #[tactic(auto, using(crate::proofs::Sites::moving, crate::proofs::moves::Meetings::allowed_full))]
    pub(crate) fn meet_keeps(&self, marks: Marks, i: u32) -> bool
        requires facts { IsProcessor self.now.plan self.now.state }
        requires allowed { row_bar self.now.plan self.now.state (mv.Meet i) ≡ None }
        requires marks { marks ≡ marks_of self.now.plan self.now.state }
        ensures { result ≡ keeps_all self.now.plan self.now.state (mv.Meet i) }
    {
        self.keeps_in_meeting(i, self.stops_by(marks, i))
    }

    /// Whether an allowed Fall leaves the marks of all stages as they are: no operation can be launched from the stage below.
    #[inline(always)]
    #[tactic(auto, using(crate::proofs::Sites::moving), unfolding(crate::specs::Marks::keeps_marks))]
    pub(crate) fn fall_keeps(&self, marks: Marks, i: u32) -> bool
        requires facts { IsProcessor self.now.plan self.now.state }
        requires allowed { row_bar self.now.plan self.now.state (mv.Fall i) ≡ None }
        requires marks { marks ≡ marks_of self.now.plan self.now.state }
        ensures { result ≡ keeps_all self.now.plan self.now.state (mv.Fall i) }
    {
        !self.launches_at(marks, i - 1)
    }

    /// Whether an Emit leaves the marks of all stages as they are: no operation can be launched from the highest stage.
    #[inline(always)]
    #[tactic(auto, unfolding(crate::specs::Marks::keeps_marks))]
    pub(crate) fn emit_keeps(&self, marks: Marks) -> bool
        requires facts { IsProcessor self.now.plan self.now.state }
        requires marks { marks ≡ marks_of self.now.plan self.now.state }
        ensures { result ≡ keeps_all self.now.plan self.now.state mv.Emit }
    {
        !self.launches_at(marks, self.stages.count())
    }
}
