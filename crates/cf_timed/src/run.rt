//! The timed run.

ghost use Rattle.std.specs.Prelude.{◌≡◌, ◌≢◌, ◌+◌, ◌-◌, ◌<◌, ◌≤◌, ◌^◌, IfOk, None, Some, length};
ghost use Rattle.rv_machine.specs.Streams.{streams_of};
ghost use Rattle.cf_io.specs.Causes.{HasCause};
ghost use Rattle.cf_sched.specs.Paces.{offered_by};
ghost use Rattle.run_finishes.specs.declared.finish.Ran.TheVariants as answers;
ghost use Rattle.run_finishes.specs.Stopped.{input_stopped, output_stopped};
ghost use Rattle.cf_run.specs.Made.{CanCount};
ghost use Rattle.cf_run.specs.Moving.{run_place_of};
ghost use Rattle.cf_run.specs.Policies.{most_moves};
ghost use Rattle.cf_timed.specs.Arrivals.{HasComeTimed, LeadsTimed, timed_at};
ghost use Rattle.cf_timed.specs.Clocks.{IsClockOf, clocked, rule_of_clock};
ghost use Rattle.cf_timed.specs.DueMoves.{AreDue};
ghost use Rattle.cf_timed.specs.TimedRuns.{CanBegin, GoesShown, GoesWatched, HasCauses, RunsTimed, answer_of_timed, answer_at_end, begins};
ghost use Rattle.cf_timed.specs.Turns.{TurnsTimed, stop_of};

use crate::answer::{Timed, TimedRun};
use crate::clock::Clock;
use crate::due_moves::DueMoves;
use crate::making_due::make_due_moves;
use crate::move_lines::MoveLines;
use crate::options::TimedOptions;
use crate::step::TimedStep;
use crate::timed_move::TimedMove;
use crate::watcher::{Unwatched, Watcher};
use cf_core::Core;
use cf_index::Candidates;
use cf_io::{Failed, Nowhere, Sink, Source};
use cf_report::Tally;
use cf_run::{Ran, Reporting, Show, known, make_and_show, over};
use cf_sched::Pace;

/// Makes the move that finishes earliest, or returns why the run stops. Nothing is shown to the watcher yet.
// It takes the watcher so that each kind of run has a function of its own for a move, which is inlined in its loop.
#[inline(always)]
fn advance<W: Watcher, S: Source, K: Sink>(
    _watcher: &W,
    core: &mut Core,
    candidates: &mut Candidates,
    clock: &mut Clock,
    pace: &mut Pace,
    kept: &mut DueMoves,
    limit: u64,
    input: &mut S,
    output: &mut K,
    tally: &mut Tally,
) -> Result<TimedStep, Ran>
    requires limit { limit + 1 < 2 ^ 64 }
    requires retired { core.old.state.retired ≤ limit }
    requires stages { pace.old.stages ≡ core.old.plan.stages }
    requires some { core.old.state.ending ≡ None → 0 < length (offered_by pace.old.rule core.old.plan pace.old.count core.old.state) }
    requires counts { CanCount tally.old }
    requires clock { IsClockOf core.old.plan clock.old }
    requires due { core.old.state.ending ≡ None → AreDue core.old.plan (clocked clock.old core.old.state) kept.old }
    ensures turns { TurnsTimed limit pace.old.rule
        (run_place_of core.old (streams_of (S.left input.old) (K.written output.old)) None tally.old)
        (run_place_of core.new (streams_of (S.left input.new) (K.written output.new)) None tally.new)
        pace.old.count pace.new.count clock.old clock.new result }
    ensures due { IfOk result (λ step. core.new.state.ending ≡ None → AreDue core.new.plan (clocked clock.new core.new.state) kept.new) }
    ensures rule { pace.new.rule ≡ pace.old.rule }
    ensures stages { pace.new.stages ≡ pace.old.stages }
    ensures input { HasCause (S.faults input.old) (S.faults input.new) (input_stopped (stop_of result)) }
    ensures output { HasCause (K.faults output.old) (K.faults output.new) (output_stopped (stop_of result)) }
{
    if let Some(ran) = over(core, limit) {
        return Err(ran);
    }
    let _layout = core.layout();
    clock.known();
    let due = clock.earliest(core, candidates, &*pace, kept);
    let done = TimedMove {
        mv: due.mv,
        delay: due.delay,
        time: due.time,
    };
    match make_and_show(
        core,
        due.mv,
        Reporting {
            show: Show::Report,
            every: None,
        },
        input,
        output,
        &mut Nowhere,
        tally,
    ) {
        Ok(event) => {
            pace.saw(due.mv, &event, core.drained());
            clock.stamp(due.mv, due.time);
            kept.made(due.mv, due.time);
            Ok(TimedStep { event, done })
        }
        Err(ran) => Err(ran),
    }
}

/// The answer of a run whose report never fails.
fn timed(ran: Ran) -> Timed
    ensures { ran ≢ answers.ReportFault → answer_of_timed result ≡ ran }
{
    match ran {
        Ran::Exit(status) => Timed::Exit(status),
        Ran::Trap { cause, pc, detail } => Timed::Trap { cause, pc, detail },
        Ran::Limit => Timed::Limit,
        Ran::ReadFault => Timed::ReadFault,
        Ran::WriteFault | Ran::ReportFault => Timed::WriteFault,
    }
}

/// Runs an opened processor by a clock that has recorded no move, and shows each move to a watcher once it was made. Of
/// the candidates that any policy would be offered under the guess rule, it makes the one that finishes earliest, and
/// if there are several, the first in the order of all moves. It runs until the program ends, as many instructions have
/// retired as the limit allows, or a fault occurs; these are tested in this order before each move. The clock records
/// the moves that were made, and their number is returned. It allocates no memory and always terminates.
///
/// `ReadFault` and `WriteFault` come only if the input or the output failed a call of the environment; the count of its
/// faults rose, and that move is not counted, not recorded by the clock and not shown. `Failed` comes only if the
/// report failed when the watcher wrote about a move; the run stops there.
pub fn run_watched<W: Watcher, S: Source, K: Sink, R: Sink>(
    core: &mut Core,
    candidates: &mut Candidates,
    clock: &mut Clock,
    watcher: &mut W,
    options: TimedOptions,
    input: &mut S,
    output: &mut K,
    report: &mut R,
) -> Result<TimedRun, Failed>
    requires begins { CanBegin options.limit core.old clock.old }
    ensures run { GoesWatched W.noted W.text options.rule (rule_of_clock clock.old) options.limit
        (begins core.old (streams_of (S.left input.old) (K.written output.old)))
        core.new (streams_of (S.left input.new) (K.written output.new)) clock.new watcher.old watcher.new
        (R.written report.old) (R.written report.new) result }
    ensures bounded { IfOk result (λ run. run.moves ≤ most_moves core.old.plan (core.new.state.retired - core.old.state.retired)) }
    ensures causes { HasCauses (S.faults input.old) (S.faults input.new) (K.faults output.old) (K.faults output.new) (answer_at_end result) }
    ensures report { HasCause (R.faults report.old) (R.faults report.new) result }
{
    known(core);
    clock.known();
    let mut kept = DueMoves::new();
    let mut pace = Pace::new(options.rule, core.layout().stages());
    let mut tally = Tally {
        moves: 0,
        meets: 0,
        kills: 0,
        dead: 0,
    };
    loop {
        let step = match advance(
            &*watcher,
            core,
            candidates,
            clock,
            &mut pace,
            &mut kept,
            options.limit,
            input,
            output,
            &mut tally,
        ) {
            Ok(step) => step,
            Err(ran) => {
                return Ok(TimedRun {
                    answer: timed(ran),
                    moves: tally.moves,
                });
            }
        };
        watcher.note(core, &step.event, &step.done, report)?;
    }
}

/// Makes and records moves that are due, as `make_due_moves` does, unless the run is over.
#[inline(always)]
fn make_due_if_on(
    core: &mut Core,
    clock: &mut Clock,
    pace: &Pace,
    limit: u64,
    kept: &mut DueMoves,
    tally: &mut Tally,
)
    requires come { HasComeTimed limit pace.now (timed_at core.old clock.old tally.old) }
    requires due { core.old.state.ending ≡ None → AreDue core.old.plan (clocked clock.old core.old.state) kept.old }
    ensures leads { LeadsTimed limit pace.now (timed_at core.old clock.old tally.old) (timed_at core.new clock.new tally.new) }
    ensures due { core.new.state.ending ≡ None → AreDue core.new.plan (clocked clock.new core.new.state) kept.new }
{
    if over(core, limit).is_none() {
        make_due_moves(core, clock, pace, limit, kept, tally);
    }
}

/// Runs an opened processor as `run_watched` does, without a watcher. The moves that are due at one time are made in a
/// loop of their own, as long as nothing enters at the bottom or leaves by them.
pub fn run_timed<S: Source, K: Sink>(
    core: &mut Core,
    candidates: &mut Candidates,
    clock: &mut Clock,
    options: TimedOptions,
    input: &mut S,
    output: &mut K,
) -> TimedRun
    requires begins { CanBegin options.limit core.old clock.old }
    ensures run { RunsTimed options.rule (rule_of_clock clock.old) options.limit
        (begins core.old (streams_of (S.left input.old) (K.written output.old)))
        core.new (streams_of (S.left input.new) (K.written output.new)) clock.new result.moves result.answer }
    ensures bounded { result.moves ≤ most_moves core.old.plan (core.new.state.retired - core.old.state.retired) }
    ensures causes { HasCauses (S.faults input.old) (S.faults input.new) (K.faults output.old) (K.faults output.new) (Some (answer_of_timed result.answer)) }
{
    known(core);
    clock.known();
    let mut kept = DueMoves::new();
    let mut pace = Pace::new(options.rule, core.layout().stages());
    let mut tally = Tally {
        moves: 0,
        meets: 0,
        kills: 0,
        dead: 0,
    };
    loop {
        make_due_if_on(core, clock, &pace, options.limit, &mut kept, &mut tally);
        if let Err(ran) = advance(
            &Unwatched,
            core,
            candidates,
            clock,
            &mut pace,
            &mut kept,
            options.limit,
            input,
            output,
            &mut tally,
        ) {
            return TimedRun {
                answer: timed(ran),
                moves: tally.moves,
            };
        }
    }
}

/// Runs an opened processor as `run_timed` does, and writes the line of each move to the report once it was made: its
/// number, when it starts and finishes, and the move. `Failed` comes only if the report failed; the run stops there.
pub fn run_shown<S: Source, K: Sink, R: Sink>(
    core: &mut Core,
    candidates: &mut Candidates,
    clock: &mut Clock,
    options: TimedOptions,
    input: &mut S,
    output: &mut K,
    report: &mut R,
) -> Result<TimedRun, Failed>
    requires begins { CanBegin options.limit core.old clock.old }
    ensures run { GoesShown options.rule (rule_of_clock clock.old) options.limit
        (begins core.old (streams_of (S.left input.old) (K.written output.old)))
        core.new (streams_of (S.left input.new) (K.written output.new)) clock.new
        (R.written report.old) (R.written report.new) result }
    ensures bounded { IfOk result (λ run. run.moves ≤ most_moves core.old.plan (core.new.state.retired - core.old.state.retired)) }
    ensures causes { HasCauses (S.faults input.old) (S.faults input.new) (K.faults output.old) (K.faults output.new) (answer_at_end result) }
    ensures report { HasCause (R.faults report.old) (R.faults report.new) result }
{
    known(core);
    run_watched(
        core,
        candidates,
        clock,
        &mut MoveLines::new(),
        options,
        input,
        output,
        report,
    )
}
