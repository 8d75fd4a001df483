//! What is measured of a run.

ghost use Rattle.std.specs.Prelude.{◌≡◌, ◌≤◌, [], IfOk, MatchResult, Some, vec_items};
ghost use Rattle.run_options.specs.Limits.{most_timed_limit};
ghost use Rattle.cf_io.specs.Causes.{HasCause};
ghost use Rattle.cf_run.specs.Headline.{machine_on};
ghost use Rattle.cf_timed.specs.Clocks.{rule_of_clock};
ghost use Rattle.cf_timed.specs.TimedRuns.{CanBegin, HasCauses, answer_of_timed};
ghost use Rattle.cli_files.specs.Image.{IsProgramFile, hart_at_start};
ghost use Rattle.cli_time.specs.Measures.{BreaksTaking, MeasuresRun};
ghost use Rattle.cf_core.specs.Processors.{opened_processor as opened_core};
ghost use Rattle.cli_time.specs.Runs.{MeasuringStops, PutsMoves, PutsRun, stopped_by_report};
ghost use Rattle.run_options.specs.declared.time_show.TimeShow.TheVariants as shows;

use crate::choices::RunChoices;
use crate::guest_input::GuestInput;
use crate::reading::ReadyTimes;
use crate::stop::Stop;
use cf_core::Core;
use cf_index::Candidates;
use cf_io::{Failed, Nowhere, Sink};
use cf_layout::Layout;
use cf_timed::{Clock, Timed, TimedOptions, TimedRun, run_shown, run_timed};
use cli_files::open_again;
use run_ledger::{Breakdown, RunLedger, run_noted};
use run_options::TimeShow;
use std::alloc::{AllocError, Global};

/// What is measured of the run of a program on a layout.
#[derive(Clone, Copy)]
pub struct Measured {
    /// How the run ended.
    pub answer: Timed,
    /// When the last of its moves finishes, in ticks.
    pub time: u64,
    /// How many moves were made.
    pub moves: u64,
    /// How many instructions retired.
    pub retired: u64,
    /// What the time is made of, if that is shown.
    pub sites: Option<Breakdown>,
}

/// What is measured of this run.
fn measurement(core: &Core, run: TimedRun, clock: &Clock, sites: Option<Breakdown>) -> Measured
    ensures { result ≡ record { answer = run.answer; time = clock.now.latest; moves = run.moves; retired = core.now.state.retired; sites = sites } }
{
    Measured {
        answer: run.answer,
        time: clock.greatest(),
        moves: run.moves,
        retired: core.retired(),
        sites,
    }
}

/// The options of a timed run, from these.
fn timed_options(options: RunChoices) -> TimedOptions
    ensures { result ≡ record { rule = options.rule; limit = options.limit } }
{
    TimedOptions {
        rule: options.rule,
        limit: options.limit,
    }
}

/// Runs an opened processor by a clock that has seen no move; nothing is shown.
fn take_time(
    core: &mut Core,
    candidates: &mut Candidates,
    clock: Clock,
    options: RunChoices,
    input: &[u8],
) -> Measured
    requires begins { CanBegin options.limit core.old clock }
    requires shown { options.show ≡ shows.Nothing }
    ensures takes { MeasuresRun (rule_of_clock clock) options core.old.plan core.old input.now (record { measured = result; shown = [] }) }
    ensures causes { HasCauses 0 0 0 0 (Some (answer_of_timed result.answer)) }
{
    let mut clock = clock;
    let run = run_timed(
        core,
        candidates,
        &mut clock,
        timed_options(options),
        &mut GuestInput { rest: input },
        &mut Nowhere,
    );
    measurement(core, run, &clock, None)
}

/// The same with a ledger that has seen no move either, which then says what the time is made of.
fn take_sites(
    core: &mut Core,
    candidates: &mut Candidates,
    clock: Clock,
    options: RunChoices,
    input: &[u8],
) -> Measured
    requires begins { CanBegin options.limit core.old clock }
    requires shown { options.show ≡ shows.Sites }
    ensures takes { MeasuresRun (rule_of_clock clock) options core.old.plan core.old input.now (record { measured = result; shown = [] }) }
    ensures causes { HasCauses 0 0 0 0 (Some (answer_of_timed result.answer)) }
{
    let mut clock = clock;
    let mut ledger = RunLedger::new(core.layout());
    let run = run_noted(
        core,
        candidates,
        &mut clock,
        &mut ledger,
        timed_options(options),
        &mut GuestInput { rest: input },
        &mut Nowhere,
    );
    measurement(core, run, &clock, Some(ledger.breakdown()))
}

/// The same without a ledger, and with a line for each move in the report.
fn take_moves<R: Sink>(
    core: &mut Core,
    candidates: &mut Candidates,
    clock: Clock,
    options: RunChoices,
    input: &[u8],
    report: &mut R,
) -> Result<Measured, Failed>
    requires begins { CanBegin options.limit core.old clock }
    requires shown { options.show ≡ shows.Moves }
    ensures takes { MatchResult result
        (PutsRun (rule_of_clock clock) options core.old.plan core.old input.now (R.written report.old) (R.written report.new))
        (λ failed. BreaksTaking (rule_of_clock clock) options core.old input.now (R.written report.old) (R.written report.new)) }
    ensures causes { IfOk result (λ measured. HasCauses 0 0 0 0 (Some (answer_of_timed measured.answer))) }
    ensures report { HasCause (R.faults report.old) (R.faults report.new) result }
{
    let mut clock = clock;
    let run = run_shown(
        core,
        candidates,
        &mut clock,
        timed_options(options),
        &mut GuestInput { rest: input },
        &mut Nowhere,
        report,
    )?;
    Ok(measurement(core, run, &clock, None))
}

/// Runs an opened processor by a clock that has seen no move, and shows what the options say.
fn take_run<R: Sink>(
    core: &mut Core,
    candidates: &mut Candidates,
    clock: Clock,
    options: RunChoices,
    input: &[u8],
    report: &mut R,
) -> Result<Measured, Failed>
    requires begins { CanBegin options.limit core.old clock }
    ensures takes { MatchResult result
        (PutsRun (rule_of_clock clock) options core.old.plan core.old input.now (R.written report.old) (R.written report.new))
        (λ failed. BreaksTaking (rule_of_clock clock) options core.old input.now (R.written report.old) (R.written report.new)) }
    ensures causes { IfOk result (λ measured. HasCauses 0 0 0 0 (Some (answer_of_timed measured.answer))) }
    ensures report { HasCause (R.faults report.old) (R.faults report.new) result }
{
    match options.show {
        TimeShow::Nothing => Ok(take_time(core, candidates, clock, options, input)),
        TimeShow::Sites => Ok(take_sites(core, candidates, clock, options, input)),
        TimeShow::Moves => take_moves(core, candidates, clock, options, input, report),
    }
}

/// A processor with its program, and room for its candidates.
#[derive(Drop)]
struct LoadedCore {
    core: Core,
    candidates: Candidates,
}

/// Loads the program again, on the processor of a layout. Memory may be refused.
#[tactic(auto, using(cf_run::proofs::Opened::opened_cores))]
fn load(alloc: Global, image: &[u8], layout: &Layout) -> Result<LoadedCore, AllocError>
    requires program { IsProgramFile image.now }
    ensures core { IfOk result (λ loaded. loaded.core ≡ opened_core layout.now (hart_at_start image.now)) }
    ensures count { IfOk result (λ loaded. (hart_at_start image.now).retired ≡ 0) }
{
    let machine = open_again(alloc, image)?;
    let candidates = Candidates::new(alloc)?;
    let core = Core::new(alloc, *layout, machine)?;
    Ok(LoadedCore { core, candidates })
}

/// Loads the program again, and runs it on the processor of the layout with this index by the moves that finish
/// earliest, over the whole of this input; its output is discarded. A ledger is kept if the options show what the time
/// is made of; if the moves are shown, the report gets their lines. Memory may be refused, before the first move; then
/// nothing is written to the report.
pub(crate) fn measure<R: Sink>(
    alloc: Global,
    ready: &ReadyTimes,
    place: usize,
    layout: &Layout,
    options: RunChoices,
    input: &[u8],
    report: &mut R,
) -> Result<Measured, Stop>
    requires limit { options.limit ≤ most_timed_limit }
    requires program { IsProgramFile (vec_items ready.now.image) }
    ensures measured { MatchResult result
        (PutsMoves ready.now.delays options layout.now (machine_on (hart_at_start (vec_items ready.now.image)) input.now)
        (R.written report.old) (R.written report.new))
        (MeasuringStops place ready.now.delays options layout.now (machine_on (hart_at_start (vec_items ready.now.image)) input.now)
        (R.written report.old) (R.written report.new)) }
    ensures cause { HasCause (R.faults report.old) (R.faults report.new) (stopped_by_report result) }
{
    let Ok(loaded) = load(alloc, ready.image.as_slice(), layout) else {
        return Err(Stop::NoMemory(place));
    };
    let mut loaded = loaded;
    let clock = Clock::new(layout, ready.delays, options.seed);
    match take_run(
        &mut loaded.core,
        &mut loaded.candidates,
        clock,
        options,
        input,
        report,
    ) {
        Ok(measured) => Ok(measured),
        Err(Failed) => Err(Stop::Failed),
    }
}
