//! What bars a move.

ghost use Rattle.std.specs.Prelude.{◌≡◌, ◌+◌, ◌≤◌, ◌++◌, length};
ghost use Rattle.texts.specs.Room.{page_room};
ghost use Rattle.report_refusals.specs.Bars.{bar_text, source_text};

use cf_bind::Bar;
use texts::Page;

/// The name of a bar, with a space if the register of a source follows.
#[tactic(auto, unfolding(crate::specs::Bars::bar_text))]
fn bar_name(bar: Bar) -> &'static [u8]
    ensures text { bar_text bar ≡ result.now ++ source_text bar }
    ensures short { length result.now ≤ 14 }
{
    match bar {
        Bar::Halted => b"Halted",
        Bar::Failed => b"Failed",
        Bar::NoSuchSite => b"NoSuchSite",
        Bar::NoPassenger => b"NoPassenger",
        Bar::NoPacket => b"NoPacket",
        Bar::Occupied => b"Occupied",
        Bar::NotMet => b"NotMet",
        Bar::AlreadyMet => b"AlreadyMet",
        Bar::SourceMissing(_) => b"SourceMissing ",
        Bar::NoUnit => b"NoUnit",
        Bar::NotDone => b"NotDone",
        Bar::Owes => b"Owes",
        Bar::OwesNothing => b"OwesNothing",
        Bar::OpNotThere => b"OpNotThere",
        Bar::LaneFull => b"LaneFull",
        Bar::LaneEmpty => b"LaneEmpty",
        Bar::FetchWaiting => b"FetchWaiting",
        Bar::BadGuess => b"BadGuess",
        Bar::Dead => b"Dead",
        Bar::AlreadyDone => b"AlreadyDone",
    }
}

/// Appends a bar: its name, and the register of a source without a value.
#[tactic(auto, using(crate::proofs::Sourceless::no_source))]
pub fn push_bar(page: &mut Page, bar: Bar)
    requires { length page.old + 20 ≤ page_room }
    ensures text { page.new ≡ page.old ++ bar_text bar }
    ensures size { length page.new ≤ length page.old + 20 }
{
    page.push(bar_name(bar));
    if let Bar::SourceMissing(register) = bar {
        page.push_register_name(register);
    }
}
