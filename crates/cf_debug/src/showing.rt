//! What a command shows.

ghost use Rattle.std.specs.Prelude.{◌≡◌};
ghost use Rattle.std.specs.List.{flat_map};
ghost use Rattle.mem_regions.specs.Fetching.{fetch_at};
ghost use Rattle.cf_semantics.specs.moves.Candidates.{candidates as candidates_in};
ghost use Rattle.report_closing.specs.Moves.{line_in};
ghost use Rattle.cf_report.specs.Putting.{PutsText};
ghost use Rattle.cf_debug.specs.Commands.{ShowsFew};
ghost use Rattle.cf_debug.specs.Replies.{code_text, view_shown};

use crate::command::View;
use crate::help::COMMANDS_HELP;
use crate::replies::{put_counted, put_memory, refuse};
use asm_listing::put_line;
use cf_core::Core;
use cf_index::Candidates;
use cf_io::{Failed, Sink, put_all};
use cf_report::{put_picture, put_registers};
use report_closing::put_standing;

/// Writes the lines of the moves that can be made.
fn put_allowed<R: Sink>(
    core: &Core,
    candidates: &mut Candidates,
    report: &mut R,
) -> Result<(), Failed>
    ensures { PutsText (R.written report.old) (R.written report.new) (R.faults report.old) (R.faults report.new)
        (flat_map (line_in core.now.plan core.now.state) (candidates_in core.now.plan core.now.state)) result }
{
    candidates.fill(core);
    for place in 0..candidates.len() {
        put_standing(core, candidates.pick(place), report)?;
    }
    Ok(())
}

/// Writes the line of the word that is fetched at an address, or that no word is fetched there.
#[tactic(auto, unfolding(crate::specs::Replies::code_text))]
fn put_code<R: Sink>(core: &Core, address: u32, report: &mut R) -> Result<(), Failed>
    ensures { PutsText (R.written report.old) (R.written report.new) (R.faults report.old) (R.faults report.new)
        (code_text address (fetch_at core.now.state.mem address)) result }
{
    match core.memory().fetch(address) {
        Ok(word) => put_line(address, word, report),
        Err(_) => refuse(b"NoAccess", report),
    }
}

/// Writes a view of the processor.
#[tactic(auto, unfolding(crate::specs::Replies::view_shown))]
pub(crate) fn show<R: Sink>(
    view: View,
    core: &Core,
    candidates: &mut Candidates,
    report: &mut R,
) -> Result<(), Failed>
    requires { ShowsFew view }
    ensures { PutsText (R.written report.old) (R.written report.new) (R.faults report.old) (R.faults report.new)
        (view_shown core.now view) result }
{
    match view {
        View::Picture => put_picture(core, report),
        View::Registers => put_registers(core.regs(), report),
        View::Memory(address, len) => put_memory(core, address, len, report),
        View::Bound => put_counted(b"bound ", core.bound(), report),
        View::Allowed => put_allowed(core, candidates, report),
        View::Standing(mv) => put_standing(core, mv, report),
        View::Code(address) => put_code(core, address, report),
        View::Help => put_all(report, COMMANDS_HELP),
    }
}
