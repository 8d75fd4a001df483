//! The files of a run of the processor.

ghost use Rattle.std.specs.Prelude.{◌≡◌, IfOk};
ghost use Rattle.cli_files.specs.ReadsFiles.{ReadsFiles};
ghost use Rattle.cli_files.specs.RunFiles.{run_asked_by, RunFilesRead, LacksRunFile};
ghost use Rattle.cli_files.specs.Schedules.{ready_schedule_view, FitsScript};

use crate::answer::Answer;
use crate::loading::load;
use crate::schedules::{ReadySchedule, schedule_at};
use cf_io::Files;
use cf_layout::Layout;
use cli_arguments::{LayoutArgument, RunOptions};
use rv_machine::Machine;
use std::alloc::Global;

/// What a run of the processor begins with: its layout, the machine that the program starts, and what chooses the moves.
#[derive(Drop)]
pub struct ReadyRun {
    pub layout: Layout,
    pub machine: Machine,
    pub schedule: ReadySchedule,
}

/// Reads the layout, the program and, if the arguments name one, the script, in this order; or returns the answer of
/// the first that is missing.
pub fn read_files<F: Files>(
    alloc: Global,
    layout: LayoutArgument<'_>,
    program: &str,
    options: RunOptions<'_>,
    files: &mut F,
) -> Result<ReadyRun, Answer>
    ensures reads { ReadsFiles
        (λ before after ready. RunFilesRead (run_asked_by layout.entry program.now options.entry) before after ready.layout ready.machine (ready_schedule_view ready.schedule))
        (LacksRunFile (run_asked_by layout.entry program.now options.entry)) F.Files files.old files.new result }
    ensures count { IfOk result (λ ready. ready.machine.retired ≡ 0) }
    ensures fits { IfOk result (λ ready. FitsScript (ready_schedule_view ready.schedule)) }
{
    let loaded = match load(alloc, layout, program, files) {
        Ok(loaded) => loaded,
        Err(answer) => return Err(answer),
    };
    match schedule_at(alloc, options.schedule, files) {
        Ok(schedule) => Ok(ReadyRun {
            layout: loaded.layout,
            machine: loaded.machine,
            schedule,
        }),
        Err(answer) => Err(answer),
    }
}
