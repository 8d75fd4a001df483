//! The command `time`.

ghost use Rattle.std.specs.Prelude.{◌≡◌, ◌≤◌, ◌++◌, IfOk, MatchResult, Ok, length, map, string_bytes, vec_items};
ghost use Rattle.run_options.specs.Limits.{most_timed_limit};
ghost use Rattle.cf_io.specs.Causes.{HasCause};
ghost use Rattle.cli_arguments.specs.Views.{times_view};
ghost use Rattle.cli_arguments.specs.Arguments.{layout_in};
ghost use Rattle.cf_run.specs.Headline.{machine_on};
ghost use Rattle.cli_files.specs.Causes.{output_answered};
ghost use Rattle.cli_files.specs.Deciding.{Decides, reading_decided};
ghost use Rattle.cli_files.specs.Image.{IsProgramFile, hart_at_start};
ghost use Rattle.cli_time.specs.Asked.{time_asked};
ghost use Rattle.cli_time.specs.Effects.{CarriesOutOverFiles};
ghost use Rattle.cli_time.specs.Runs.{PutsAll, TimingStops, stopped_by_report};
ghost use Rattle.cli_time.specs.Times.{AnswersTime, BreaksTime, BreaksTimes, TimesOf};

use crate::choices::{RunChoices, choices_by};
use crate::input_files::input_at;
use crate::layout_files::argument_at;
use crate::leasts::first_least;
use crate::lines::{put_layout, put_least};
use crate::measuring::measure;
use crate::reading::{ReadyTimes, read_files};
use crate::stop::Stop;
use arrayvec::ArrayVec;
use cf_io::{Failed, Files, Sink};
use cli_arguments::TimeOptions;
use cli_files::{Answer, done, no_memory};
use cli_reports::{Reported, put_decided};
use std::alloc::Global;

/// Runs the program on each layout, and writes the lines of each before the next run begins. Returns the times, in the
/// order of the layouts.
fn time_each<R: Sink>(
    alloc: Global,
    ready: &ReadyTimes,
    input: &[u8],
    arguments: &[String],
    options: RunChoices,
    report: &mut R,
) -> Result<ArrayVec<u64, 8>, Stop>
    requires limit { options.limit ≤ most_timed_limit }
    requires program { IsProgramFile (vec_items ready.now.image) }
    requires arguments { length arguments.now ≡ length (vec_items ready.now.layouts) }
    requires few { length arguments.now ≤ 8 }
    ensures put { MatchResult result
        (λ times. PutsAll (map layout_in (map string_bytes arguments.now)) options ready.now.delays (vec_items ready.now.layouts)
        (machine_on (hart_at_start (vec_items ready.now.image)) input.now) (R.written report.old) (R.written report.new) times.items)
        (λ stop. TimingStops (map layout_in (map string_bytes arguments.now)) options ready.now.delays (vec_items ready.now.layouts)
        (machine_on (hart_at_start (vec_items ready.now.image)) input.now) (R.written report.old) (R.written report.new) stop) }
    ensures cause { HasCause (R.faults report.old) (R.faults report.new) (stopped_by_report result) }
{
    let limit = options.limit;
    let layouts = ready.layouts.as_slice();
    let mut times = ArrayVec::new();
    for place in 0..layouts.len() {
        let measured = match measure(alloc, ready, place, &layouts[place], options, input, report) {
            Ok(measured) => measured,
            Err(stop) => return Err(stop),
        };
        let time = measured.time;
        if put_layout(limit, argument_at(arguments, place), measured, report).is_err() {
            return Err(Stop::Failed);
        }
        times.push(time);
    }
    Ok(times)
}

/// Runs the program on each layout, writes the lines of each, and names the first layout with the least time.
fn compare_ready<R: Sink>(
    alloc: Global,
    ready: &ReadyTimes,
    input: &[u8],
    arguments: &[String],
    options: RunChoices,
    report: &mut R,
) -> Result<Answer, Failed>
    requires limit { options.limit ≤ most_timed_limit }
    requires program { IsProgramFile (vec_items ready.now.image) }
    requires arguments { length arguments.now ≡ length (vec_items ready.now.layouts) }
    requires some { 1 ≤ length arguments.now }
    requires few { length arguments.now ≤ 8 }
    ensures comes { Decides
        (TimesOf (map layout_in (map string_bytes arguments.now)) options ready.now.delays (vec_items ready.now.layouts) (machine_on (hart_at_start (vec_items ready.now.image)) input.now))
        (BreaksTimes (map layout_in (map string_bytes arguments.now)) options ready.now.delays (vec_items ready.now.layouts)
        (machine_on (hart_at_start (vec_items ready.now.image)) input.now) (R.written report.old) (R.written report.new))
        (R.written report.old) (R.written report.new) result }
    ensures files { reading_decided result ≡ Ok tt }
    ensures output { IfOk result (λ answer. output_answered answer.status ≡ Ok tt) }
    ensures report { HasCause (R.faults report.old) (R.faults report.new) result }
{
    let times = match time_each(alloc, ready, input, arguments, options, report) {
        Ok(times) => times,
        Err(Stop::NoMemory(_)) => return Ok(no_memory()),
        Err(Stop::Failed) => return Err(Failed),
    };
    let least = first_least(times.as_slice());
    put_least(argument_at(arguments, least), report)?;
    Ok(done())
}

/// Reads the files that the arguments name, in their order, and compares.
fn compare_files<F: Files, R: Sink>(
    alloc: Global,
    delays: &str,
    program: &str,
    layouts: &[String],
    options: TimeOptions<'_>,
    files: &mut F,
    report: &mut R,
) -> Result<Answer, Failed>
    requires limit { options.limit ≤ most_timed_limit }
    requires some { 1 ≤ length layouts.now }
    requires few { length layouts.now ≤ 8 }
    ensures answers { Decides
        (AnswersTime (time_asked delays.now program.now (map layout_in (map string_bytes layouts.now)) (times_view options.entry))
        (F.told files.old) (F.told files.new))
        (BreaksTime (time_asked delays.now program.now (map layout_in (map string_bytes layouts.now)) (times_view options.entry))
        (F.told files.old) (F.told files.new) (R.written report.old) (R.written report.new))
        (R.written report.old) (R.written report.new) result }
    ensures files { HasCause (F.faults files.old) (F.faults files.new) (reading_decided result) }
    ensures output { IfOk result (λ answer. output_answered answer.status ≡ Ok tt) }
    ensures report { HasCause (R.faults report.old) (R.faults report.new) result }
{
    let ready = match read_files(alloc, delays, program, layouts, files) {
        Ok(ready) => ready,
        Err(answer) => return Ok(answer),
    };
    match input_at(alloc, options.input, files) {
        Ok(input) => compare_ready(
            alloc,
            &ready,
            input.as_slice(),
            layouts,
            choices_by(options),
            report,
        ),
        Err(answer) => Ok(answer),
    }
}

/// Carries out `time`: reads the delays, the one to eight layouts in their order, the program and, if the options name
/// a file for it, the program's input. It runs the program on each layout, loaded again and over the whole input, by
/// the moves that finish earliest. The line of each layout is written to the report as it comes, with how the run
/// ended, its time in ticks, and how many moves were made and instructions retired. If the options say so, the lines of
/// its moves come before it, or what its time is made of after it. The last line names the first layout with the least
/// time. If no file is named for the input, it is empty, and the program's output is discarded. Memory may be refused
/// before the first move of each run, and then the report has the lines of the earlier ones. It fails if the report
/// fails; then nothing more is written to it.
pub fn compare_layouts<F: Files, R: Sink>(
    alloc: Global,
    delays: &str,
    program: &str,
    layouts: &[String],
    options: TimeOptions<'_>,
    files: &mut F,
    report: &mut R,
) -> Result<Reported, Failed>
    requires limit { options.limit ≤ most_timed_limit }
    requires some { 1 ≤ length layouts.now }
    requires few { length layouts.now ≤ 8 }
    ensures { CarriesOutOverFiles
        (λ before after answer shown closing. AnswersTime
        (time_asked delays.now program.now (map layout_in (map string_bytes layouts.now)) (times_view options.entry))
        before after answer (shown ++ closing))
        (BreaksTime (time_asked delays.now program.now (map layout_in (map string_bytes layouts.now)) (times_view options.entry)))
        F.Files R.Sink (files.old, report.old) (files.new, report.new) result }
{
    let decided = compare_files(alloc, delays, program, layouts, options, files, report);
    put_decided(decided, report)
}
