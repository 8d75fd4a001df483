//! The commands `run` and `moves`.

ghost use Rattle.std.specs.Prelude.{◌≡◌, ◌≤◌};
ghost use Rattle.run_options.specs.Limits.{most_limit};
ghost use Rattle.cli_arguments.specs.Views.{layout_of, schedule_view as asked_schedule};
ghost use Rattle.cf_core.specs.Processors.{opened_processor};
ghost use Rattle.cf_run.specs.Policies.{CanRun};
ghost use Rattle.cli_files.specs.RunFiles.{run_asked};
ghost use Rattle.cli_reports.specs.Reporting.{CarriesOutCommand, CarriesOutRun};
ghost use Rattle.cli_run.specs.Run.{chosen_by, RunsCore, RunsWithTail, BreaksCore, ComesOf, AnswersRun, BreaksRun};
ghost use Rattle.cli_reports.specs.OutsideChanges.{run_change, outside_change};
ghost use Rattle.cli_files.specs.Schedules.{ready_schedule_view, FitsScript};

use crate::by_rule::run_by_rule;
use crate::by_script::run_by_script;
use crate::by_seed::run_by_seed;
use crate::tail::{Tail, add_tail};
use cf_core::Core;
use cf_index::Candidates;
use cf_io::{Failed, Files, Sink, Source};
use cf_report::ReportSink;
use cf_run::Reporting;
use cf_sched::{Drawn, Round};
use cli_arguments::{LayoutArgument, RunOptions};
use cli_files::{ReadyRun, ReadySchedule, no_memory, read_files};
use cli_processor::{Opened, open};
use cli_reports::{Reported, RunStreams, put_answer};
use std::alloc::Global;

/// Runs the opened processor by what was read.
#[tactic(auto, using(cf_run::proofs::Opened::opened_cores))]
fn run_scheduled<S: Source, K: Sink, R: ReportSink>(
    core: &mut Core,
    candidates: &mut Candidates,
    schedule: &ReadySchedule,
    limit: u64,
    reporting: Reporting,
    streams: RunStreams<'_, S, K, R>,
) -> Result<Reported, Failed>
    requires begins { CanRun limit core.old }
    requires fits { FitsScript (ready_schedule_view schedule.now) }
    ensures { CarriesOutRun (RunsCore limit reporting core.old core.new (chosen_by limit reporting (ready_schedule_view schedule.now)))
        (BreaksCore limit reporting core.old (chosen_by limit reporting (ready_schedule_view schedule.now)))
        (run_change S.Source K.Sink R.Sink streams.entry streams.exit) result }
{
    match schedule {
        ReadySchedule::Script(text) => {
            run_by_script(core, text.as_slice(), limit, reporting, streams)
        }
        ReadySchedule::Seed(seed, rule) => {
            let drawn = Drawn::new(*seed);
            run_by_seed(core, candidates, drawn, *rule, limit, reporting, streams)
        }
        ReadySchedule::Rule(rule) => {
            let round = Round::new();
            run_by_rule(core, candidates, round, *rule, limit, reporting, streams)
        }
    }
}

/// Runs the opened processor by what was read, and writes the tail after its report.
fn run_opened<S: Source, K: Sink, R: ReportSink>(
    opened: &mut Opened,
    schedule: &ReadySchedule,
    options: RunOptions<'_>,
    tail: Tail,
    streams: RunStreams<'_, S, K, R>,
) -> Result<Reported, Failed>
    requires begins { CanRun options.limit opened.old.core }
    requires fits { FitsScript (ready_schedule_view schedule.now) }
    ensures { CarriesOutRun
        (RunsWithTail options.entry.limit options.entry.reporting tail opened.old.core opened.new.core (chosen_by options.entry.limit options.entry.reporting (ready_schedule_view schedule.now)))
        (BreaksCore options.entry.limit options.entry.reporting opened.old.core (chosen_by options.entry.limit options.entry.reporting (ready_schedule_view schedule.now)))
        (run_change S.Source K.Sink R.Sink streams.entry streams.exit) result }
{
    let RunStreams {
        input,
        output,
        report,
    } = streams;
    let reported = run_scheduled(
        &mut opened.core,
        &mut opened.candidates,
        schedule,
        options.limit,
        options.reporting,
        RunStreams {
            input,
            output,
            report: &mut *report,
        },
    )?;
    Ok(add_tail(tail, &opened.core, reported, report))
}

/// Opens the processor of the layout on the machine, runs it by what was read, and writes the tail after its report.
pub fn run_ready<S: Source, K: Sink, R: ReportSink>(
    alloc: Global,
    ready: ReadyRun,
    options: RunOptions<'_>,
    tail: Tail,
    streams: RunStreams<'_, S, K, R>,
) -> Result<Reported, Failed>
    requires limit { options.limit ≤ most_limit }
    requires count { ready.machine.retired ≡ 0 }
    requires fits { FitsScript (ready_schedule_view ready.schedule) }
    ensures { CarriesOutRun
        (ComesOf options.entry.limit options.entry.reporting tail ready.layout ready.machine (ready_schedule_view ready.schedule))
        (BreaksCore options.entry.limit options.entry.reporting (opened_processor ready.layout ready.machine) (chosen_by options.entry.limit options.entry.reporting (ready_schedule_view ready.schedule)))
        (run_change S.Source K.Sink R.Sink streams.entry streams.exit) result }
{
    match open(alloc, ready.layout, ready.machine) {
        Ok(mut opened) => run_opened(&mut opened, &ready.schedule, options, tail, streams),
        Err(_) => Ok(put_answer(no_memory(), streams.report)),
    }
}

/// Carries out `run` and `moves`. It reads the layout, the program and, if the arguments name one, the script, in this
/// order. It runs the processor by the script, by moves drawn from the seed, or by the fixed rule, the latter two under
/// a guess rule. It writes what is to be shown, then how the run finished, how many instructions retired, the tally of
/// its moves, the registers and the picture, and after that the tail. It fails if the report fails during the run; then
/// nothing more is written to the report.
pub fn run_processor<F: Files, S: Source, K: Sink, R: ReportSink>(
    alloc: Global,
    layout: LayoutArgument<'_>,
    program: &str,
    options: RunOptions<'_>,
    tail: Tail,
    files: &mut F,
    streams: RunStreams<'_, S, K, R>,
) -> Result<Reported, Failed>
    requires { options.limit ≤ most_limit }
    ensures { CarriesOutCommand
        (AnswersRun tail (run_asked (layout_of layout.entry) program.now (asked_schedule options.entry.schedule) options.entry.limit options.entry.reporting))
        (BreaksRun (run_asked (layout_of layout.entry) program.now (asked_schedule options.entry.schedule) options.entry.limit options.entry.reporting))
        (outside_change F.Files S.Source K.Sink R.Sink files.old files.new streams.entry streams.exit) result }
{
    match read_files(alloc, layout, program, options, files) {
        Ok(ready) => run_ready(alloc, ready, options, tail, streams),
        Err(answer) => Ok(put_answer(answer, streams.report)),
    }
}
