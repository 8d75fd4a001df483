//! What chooses the moves of a run, once its files are read.

ghost use Rattle.std.specs.Prelude.{IfOk};
ghost use Rattle.cli_files.specs.ReadsFiles.{ReadsFiles};
ghost use Rattle.cli_arguments.specs.Views.{schedule_view as asked_schedule};
ghost use Rattle.cli_files.specs.Schedules.{ready_schedule_view, FitsScript, IsScheduled, LacksSchedule};

use crate::answer::Answer;
use crate::scripts::script_at;
use cf_io::Files;
use cli_arguments::{GuessRule, Schedule};
use std::alloc::Global;

/// What chooses the moves of a run.
#[derive(Drop)]
pub enum ReadySchedule {
    /// The script of this text.
    Script(Vec<u8>),
    /// They are drawn from this seed, among those that the guess rule keeps.
    Seed(u32, GuessRule),
    /// The fixed rule, among those that the guess rule keeps.
    Rule(GuessRule),
}

/// Reads the script, if the arguments ask for one in a file; or returns the answer if that file holds none.
pub fn schedule_at<F: Files>(
    alloc: Global,
    schedule: Schedule<'_>,
    files: &mut F,
) -> Result<ReadySchedule, Answer>
    ensures reads { ReadsFiles (λ before after ready. IsScheduled (asked_schedule schedule.entry) before after (ready_schedule_view ready))
        (LacksSchedule (asked_schedule schedule.entry)) F.Files files.old files.new result }
    ensures fits { IfOk result (λ ready. FitsScript (ready_schedule_view ready)) }
{
    match schedule {
        Schedule::Script(file) => match script_at(alloc, file, files) {
            Ok(text) => Ok(ReadySchedule::Script(text)),
            Err(answer) => Err(answer),
        },
        Schedule::Seed(seed, rule) => Ok(ReadySchedule::Seed(seed, rule)),
        Schedule::Rule(rule) => Ok(ReadySchedule::Rule(rule)),
    }
}
