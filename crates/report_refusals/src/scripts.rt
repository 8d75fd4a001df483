//! Why a line of a script is not a move.

ghost use Rattle.std.specs.Prelude.{◌≡◌, ◌+◌, ◌≤◌, ◌++◌, length};
ghost use Rattle.texts.specs.Room.{page_room};
ghost use Rattle.report_refusals.specs.Scripts.{script_refusal};

use run_scripts::ScriptKind;
use texts::Page;

/// The name of the reason why a line of a script is not a move.
#[tactic(auto, unfolding(crate::specs::Scripts::script_refusal))]
fn script_name(kind: ScriptKind) -> &'static [u8]
    ensures text { result.now ≡ script_refusal kind }
    ensures short { length result.now ≤ 11 }
{
    match kind {
        ScriptKind::UnknownMove => b"UnknownMove",
        ScriptKind::BadNumber => b"BadNumber",
        ScriptKind::ExtraWords => b"ExtraWords",
        ScriptKind::NotAscii => b"NotAscii",
    }
}

/// Why a line of a script is not a move.
pub fn push_script(page: &mut Page, kind: ScriptKind)
    requires { length page.old + 20 ≤ page_room }
    ensures text { page.new ≡ page.old ++ script_refusal kind }
    ensures size { length page.new ≤ length page.old + 20 }
{
    page.push(script_name(kind));
}
