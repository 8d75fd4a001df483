//! A move together with what it changes in the marks. For most kinds it depends on the kind alone what is to be marked
//! again, so that a caller who knows the kind tests nothing.

ghost use Rattle.std.specs.Prelude.{◌≡◌, ◌≢◌, ◌+◌, ◌<◌, ◌^◌, None};
ghost use Rattle.rv_machine.specs.Streams.{streams_of};
ghost use Rattle.cf_bind.specs.declared.moves.Move.TheVariants as mv;
ghost use Rattle.cf_semantics.specs.moves.Bars.{bar as first_bar, row_bar};
ghost use Rattle.cf_semantics.specs.moves.Events.{IsEvent};
ghost use Rattle.cf_core.specs.Asking.{AsksInput, AsksOutput, LeavesStream};
ghost use Rattle.cf_core.specs.Marks.{marks_of};
ghost use Rattle.cf_core.specs.Processors.{IsProcessor, after_move};
ghost use Rattle.cf_core.specs.Stepping.{MakesOrFails, input_made, output_made};

use crate::fault::Fault;
use crate::marks::Marks;
use crate::processor::Processor;
use cf_bind::{Guess, Move};
use cf_io::{Sink, Source};
use cf_semantics::Event;

impl Processor {
    /// Makes an allowed Issue, and marks the lowest stage.
    #[inline(never)]
    fn make_issue(&mut self, marks: &mut Marks, guess: Guess)
        requires facts { IsProcessor self.old.plan self.old.state }
        requires allowed { row_bar self.old.plan self.old.state (mv.Issue guess) ≡ None }
        requires marks { marks.old ≡ marks_of self.old.plan self.old.state }
        ensures processor { self.new ≡ after_move self.old (mv.Issue guess) }
        ensures marks { marks.new ≡ marks_of self.new.plan self.new.state }
    {
        self.issue(guess);
        self.mark_issued(marks);
    }

    /// Makes an allowed Execute, and marks its stage.
    #[inline(never)]
    fn make_execute(&mut self, marks: &mut Marks, i: u32)
        requires facts { IsProcessor self.old.plan self.old.state }
        requires allowed { row_bar self.old.plan self.old.state (mv.Execute i) ≡ None }
        requires marks { marks.old ≡ marks_of self.old.plan self.old.state }
        ensures processor { self.new ≡ after_move self.old (mv.Execute i) }
        ensures marks { marks.new ≡ marks_of self.new.plan self.new.state }
    {
        self.execute(i);
        self.mark_resting(marks, i);
    }

    /// Makes an allowed Send, and marks its stage.
    #[inline(never)]
    #[tactic(auto, using(crate::proofs::Sites::sending))]
    fn make_send(&mut self, marks: &mut Marks, i: u32)
        requires facts { IsProcessor self.old.plan self.old.state }
        requires allowed { row_bar self.old.plan self.old.state (mv.Send i) ≡ None }
        requires marks { marks.old ≡ marks_of self.old.plan self.old.state }
        ensures processor { self.new ≡ after_move self.old (mv.Send i) }
        ensures marks { marks.new ≡ marks_of self.new.plan self.new.state }
    {
        self.send(i);
        marks.mark_sent(i);
    }

    /// Makes an allowed Meet, marks its stage unless the marks stay as they were, and returns what is seen of it.
    #[inline(always)]
    fn make_meet(&mut self, marks: &mut Marks, i: u32) -> Event
        requires facts { IsProcessor self.old.plan self.old.state }
        requires allowed { row_bar self.old.plan self.old.state (mv.Meet i) ≡ None }
        requires marks { marks.old ≡ marks_of self.old.plan self.old.state }
        ensures processor { self.new ≡ after_move self.old (mv.Meet i) }
        ensures event { IsEvent self.old.plan self.old.state (mv.Meet i) result }
        ensures marks { marks.new ≡ marks_of self.new.plan self.new.state }
    {
        let keeps = self.meet_keeps(*marks, i);
        let event = self.meet(i);
        if keeps {
            return event;
        }
        self.mark_met(marks, i);
        event
    }

    /// Makes an allowed Fall. It changes marks only where it bars a Launch.
    #[inline(always)]
    fn make_fall(&mut self, marks: &mut Marks, i: u32)
        requires facts { IsProcessor self.old.plan self.old.state }
        requires allowed { row_bar self.old.plan self.old.state (mv.Fall i) ≡ None }
        requires marks { marks.old ≡ marks_of self.old.plan self.old.state }
        ensures processor { self.new ≡ after_move self.old (mv.Fall i) }
        ensures marks { marks.new ≡ marks_of self.new.plan self.new.state }
    {
        let keeps = self.fall_keeps(*marks, i);
        self.fall(i);
        if !keeps {
            self.mark_beside_result(marks, i - 1);
        }
    }

    /// Makes an allowed Emit. It changes marks only where it bars a Launch.
    #[inline(always)]
    fn make_emit(&mut self, marks: &mut Marks)
        requires facts { IsProcessor self.old.plan self.old.state }
        requires allowed { row_bar self.old.plan self.old.state mv.Emit ≡ None }
        requires marks { marks.old ≡ marks_of self.old.plan self.old.state }
        ensures processor { self.new ≡ after_move self.old mv.Emit }
        ensures marks { marks.new ≡ marks_of self.new.plan self.new.state }
    {
        let keeps = self.emit_keeps(*marks);
        let top = self.stages.count();
        self.emit();
        if !keeps {
            self.mark_beside_result(marks, top);
        }
    }

    /// Makes an allowed Launch, and marks the stages that it touched.
    #[inline(never)]
    fn make_launch(&mut self, marks: &mut Marks, i: u32)
        requires facts { IsProcessor self.old.plan self.old.state }
        requires allowed { row_bar self.old.plan self.old.state (mv.Launch i) ≡ None }
        requires marks { marks.old ≡ marks_of self.old.plan self.old.state }
        ensures processor { self.new ≡ after_move self.old (mv.Launch i) }
        ensures marks { marks.new ≡ marks_of self.new.plan self.new.state }
    {
        let sites = self.touched(Move::Launch(i));
        self.launch(i);
        self.mark_resting(marks, i);
        self.mark_return(marks, sites);
    }

    /// Makes an allowed Slide, and marks the stages that it touched.
    #[inline(never)]
    fn make_slide(&mut self, marks: &mut Marks, k: u32, c: u32)
        requires facts { IsProcessor self.old.plan self.old.state }
        requires allowed { row_bar self.old.plan self.old.state (mv.Slide k c) ≡ None }
        requires marks { marks.old ≡ marks_of self.old.plan self.old.state }
        ensures processor { self.new ≡ after_move self.old (mv.Slide k c) }
        ensures marks { marks.new ≡ marks_of self.new.plan self.new.state }
    {
        let sites = self.touched(Move::Slide(k, c));
        self.slide(k, c);
        self.mark_siding(marks, sites);
    }

    /// Makes an allowed Access, and marks the stages that it touched.
    #[inline(never)]
    fn make_access(&mut self, marks: &mut Marks)
        requires facts { IsProcessor self.old.plan self.old.state }
        requires allowed { row_bar self.old.plan self.old.state mv.Access ≡ None }
        requires marks { marks.old ≡ marks_of self.old.plan self.old.state }
        ensures processor { self.new ≡ after_move self.old mv.Access }
        ensures marks { marks.new ≡ marks_of self.new.plan self.new.state }
    {
        let port = self.touched(Move::Access);
        self.access();
        self.mark_return(marks, port);
    }

    /// Makes an allowed Recover, and marks the stages that it touched.
    #[inline(never)]
    fn make_recover(&mut self, marks: &mut Marks, i: u32)
        requires facts { IsProcessor self.old.plan self.old.state }
        requires allowed { row_bar self.old.plan self.old.state (mv.Recover i) ≡ None }
        requires marks { marks.old ≡ marks_of self.old.plan self.old.state }
        ensures processor { self.new ≡ after_move self.old (mv.Recover i) }
        ensures marks { marks.new ≡ marks_of self.new.plan self.new.state }
    {
        let sites = self.touched(Move::Recover(i));
        self.recover(i);
        self.mark_resting(marks, i);
        self.mark_entry(marks, sites);
    }

    /// Makes an allowed Leave, which changes no mark, and returns what is seen of it.
    #[inline(always)]
    fn make_leave(&mut self, marks: &Marks) -> Event
        requires facts { IsProcessor self.old.plan self.old.state }
        requires allowed { row_bar self.old.plan self.old.state mv.Leave ≡ None }
        requires count { self.old.state.retired + 1 < 2 ^ 64 }
        requires marks { marks.now ≡ marks_of self.old.plan self.old.state }
        ensures processor { self.new ≡ after_move self.old mv.Leave }
        ensures event { IsEvent self.old.plan self.old.state mv.Leave result }
        ensures marks { marks.now ≡ marks_of self.new.plan self.new.state }
    {
        let _marks = marks;
        self.leave()
    }

    /// Makes an allowed Exit, which changes no mark.
    #[inline(always)]
    fn make_exit(&mut self, marks: &Marks)
        requires facts { IsProcessor self.old.plan self.old.state }
        requires allowed { row_bar self.old.plan self.old.state mv.Exit ≡ None }
        requires marks { marks.now ≡ marks_of self.old.plan self.old.state }
        ensures processor { self.new ≡ after_move self.old mv.Exit }
        ensures marks { marks.now ≡ marks_of self.new.plan self.new.state }
    {
        let _marks = marks;
        self.exit();
    }

    /// Makes an allowed Climb. Of an instruction that has still work to do little is marked again, of any other nothing.
    #[inline(never)]
    fn make_climb(&mut self, marks: &mut Marks, i: u32)
        requires facts { IsProcessor self.old.plan self.old.state }
        requires allowed { first_bar self.old.plan self.old.state (mv.Climb i) ≡ None }
        requires marks { marks.old ≡ marks_of self.old.plan self.old.state }
        ensures processor { self.new ≡ after_move self.old (mv.Climb i) }
        ensures marks { marks.new ≡ marks_of self.new.plan self.new.state }
    {
        let work = self.work_at(i);
        self.climb(i);
        match work {
            Some(class) => self.remark_climb(marks, class, i, i + 1),
            None => (),
        }
    }

    /// Makes an allowed move, which is not Serve, keeps the marks up to date and returns what is seen of it.
    // Each arm is a function of its kind: one function for all with the kind passed on would be inlined once for each arm,
    // with all that any kind needs. The kinds that need much and are made rarely are calls, since a function that grows too
    // large is not inlined.
    #[inline(always)]
    #[tactic(auto, unfolding(cf_semantics::specs::moves::Bars::bar))]
    pub(crate) fn make_marked(&mut self, marks: &mut Marks, m: Move) -> Event
        requires facts { IsProcessor self.old.plan self.old.state }
        requires allowed { first_bar self.old.plan self.old.state m ≡ None }
        requires count { m ≡ mv.Leave → self.old.state.retired + 1 < 2 ^ 64 }
        requires other { m ≢ mv.Serve }
        requires marks { marks.old ≡ marks_of self.old.plan self.old.state }
        ensures processor { self.new ≡ after_move self.old m }
        ensures event { IsEvent self.old.plan self.old.state m result }
        ensures marks { marks.new ≡ marks_of self.new.plan self.new.state }
    {
        match m {
            Move::Issue(guess) => self.make_issue(marks, guess),
            Move::Emit => self.make_emit(marks),
            Move::Climb(i) => self.make_climb(marks, i),
            Move::Fall(i) => self.make_fall(marks, i),
            Move::Meet(i) => return self.make_meet(marks, i),
            Move::Execute(i) => self.make_execute(marks, i),
            Move::Send(i) => self.make_send(marks, i),
            Move::Launch(i) => self.make_launch(marks, i),
            Move::Slide(k, c) => self.make_slide(marks, k, c),
            Move::Access => self.make_access(marks),
            Move::Recover(i) => self.make_recover(marks, i),
            Move::Leave => return self.make_leave(&*marks),
            Move::Exit => self.make_exit(&*marks),
            Move::Serve => unreachable!(),
        }
        Event::Plain
    }

    /// Makes an allowed Serve, and returns what is seen of it, or that the input or the output failed it. The marks are
    /// left as they were.
    #[inline(always)]
    #[tactic(auto, unfolding(cf_semantics::specs::moves::Bars::bar, crate::specs::Stepping::MakesOrFails))]
    fn serve_seen<S: Source, K: Sink>(
        &mut self,
        input: &mut S,
        output: &mut K,
    ) -> Result<Event, Fault>
        requires facts { IsProcessor self.old.plan self.old.state }
        requires allowed { first_bar self.old.plan self.old.state mv.Serve ≡ None }
        ensures makes { MakesOrFails self.old self.new mv.Serve
            (streams_of (S.left input.old) (K.written output.old))
            (streams_of (S.left input.new) (K.written output.new)) result }
        ensures input { LeavesStream S.faults (AsksInput self.old mv.Serve) input.old input.new (input_made result) }
        ensures output { LeavesStream K.faults (AsksOutput self.old mv.Serve) output.old output.new (output_made result) }
    {
        match self.serve(input, output) {
            Ok(()) => Ok(Event::Plain),
            Err(fault) => Err(fault),
        }
    }

    /// Makes an allowed Serve and brings the marks up to date.
    // The environment's part is a call. This is not, so that what any other move shows need not go through memory.
    #[inline(always)]
    #[tactic(auto, using(crate::proofs::moves::KeptServe::making))]
    fn make_serve<S: Source, K: Sink>(
        &mut self,
        marks: &mut Marks,
        input: &mut S,
        output: &mut K,
    ) -> Result<Event, Fault>
        requires facts { IsProcessor self.old.plan self.old.state }
        requires allowed { first_bar self.old.plan self.old.state mv.Serve ≡ None }
        requires marks { marks.old ≡ marks_of self.old.plan self.old.state }
        ensures makes { MakesOrFails self.old self.new mv.Serve
            (streams_of (S.left input.old) (K.written output.old))
            (streams_of (S.left input.new) (K.written output.new)) result }
        ensures input { LeavesStream S.faults (AsksInput self.old mv.Serve) input.old input.new (input_made result) }
        ensures output { LeavesStream K.faults (AsksOutput self.old mv.Serve) output.old output.new (output_made result) }
        ensures marks { marks.new ≡ marks_of self.new.plan self.new.state }
    {
        let touched = self.touched(Move::Serve);
        let made = self.serve_seen(input, output);
        self.remark(marks, touched);
        made
    }

    /// Makes an allowed move, and returns what is seen of it, or that the input or the output failed it.
    #[inline(always)]
    #[tactic(auto, using(crate::proofs::Steps::stepping), unfolding(crate::specs::Stepping::MakesOrFails))]
    pub(crate) fn make<S: Source, K: Sink>(
        &mut self,
        marks: &mut Marks,
        m: Move,
        input: &mut S,
        output: &mut K,
    ) -> Result<Event, Fault>
        requires facts { IsProcessor self.old.plan self.old.state }
        requires allowed { first_bar self.old.plan self.old.state m ≡ None }
        requires count { m ≡ mv.Leave → self.old.state.retired + 1 < 2 ^ 64 }
        requires marks { marks.old ≡ marks_of self.old.plan self.old.state }
        ensures makes { MakesOrFails self.old self.new m
            (streams_of (S.left input.old) (K.written output.old))
            (streams_of (S.left input.new) (K.written output.new)) result }
        ensures input { LeavesStream S.faults (AsksInput self.old m) input.old input.new (input_made result) }
        ensures output { LeavesStream K.faults (AsksOutput self.old m) output.old output.new (output_made result) }
        ensures marks { marks.new ≡ marks_of self.new.plan self.new.state }
    {
        match m {
            Move::Serve => self.make_serve(marks, input, output),
            _ => Ok(self.make_marked(marks, m)),
        }
    }
}
