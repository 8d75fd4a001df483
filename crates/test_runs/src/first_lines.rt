//! How a run finished, the bars of moves, and why a line is not a move, as in the tables of reports.
use cf_bind::Bar;
use cf_run::Ran;
use report_closing::run_line;
use report_refusals::{push_bar, push_script};
use run_scripts::ScriptKind;
use std::process::Abort;
use texts::Page;

/// Each way in which a run finishes, whatever its schedule.
const ENDS: [Ran; 7] = [
    Ran::Exit(0),
    Ran::Exit(255),
    Ran::Trap {
        cause: 4,
        pc: 0x1_0004,
        detail: 0x7f0f_fffe,
    },
    Ran::Limit,
    Ran::ReadFault,
    Ran::WriteFault,
    Ran::ReportFault,
];

/// Why a line of a script is not a move.
const KINDS: [ScriptKind; 4] = [
    ScriptKind::UnknownMove,
    ScriptKind::BadNumber,
    ScriptKind::ExtraWords,
    ScriptKind::NotAscii,
];

/// Each bar; that of a missing source with a register of one digit, and with one of two.
const BARS: [Bar; 21] = [
    Bar::Halted,
    Bar::Failed,
    Bar::NoSuchSite,
    Bar::NoPassenger,
    Bar::NoPacket,
    Bar::Occupied,
    Bar::NotMet,
    Bar::AlreadyMet,
    Bar::SourceMissing(5),
    Bar::SourceMissing(31),
    Bar::NoUnit,
    Bar::NotDone,
    Bar::Owes,
    Bar::OwesNothing,
    Bar::OpNotThere,
    Bar::LaneFull,
    Bar::LaneEmpty,
    Bar::FetchWaiting,
    Bar::BadGuess,
    Bar::Dead,
    Bar::AlreadyDone,
];

/// The lines of the ends under a limit of 500 (a failed report has none), the names of the bars, and those of the
/// kinds.
const TEXTS: &str = "exit 0
exit 255
trap 4 at 00010004 detail 7f0ffffe
limit 500
read fault input
write fault output
Halted Failed NoSuchSite NoPassenger NoPacket Occupied NotMet AlreadyMet SourceMissing x05 SourceMissing x31 NoUnit NotDone Owes \
OwesNothing OpNotThere LaneFull LaneEmpty FetchWaiting BadGuess Dead AlreadyDone UnknownMove BadNumber ExtraWords NotAscii ";

/// Adds the bytes of a page.
fn add(rt: &impl Abort, texts: &mut Vec<u8>, page: &Page) {
    texts.extend_from_slice(page.bytes()).expect(rt, "memory");
}

/// Adds the lines of the ends.
fn add_ends(rt: &impl Abort, texts: &mut Vec<u8>) {
    for answer in &ENDS {
        add(rt, texts, &run_line(500, *answer));
    }
}

/// Adds the names of the bars, each with a space.
fn add_bars(rt: &impl Abort, texts: &mut Vec<u8>) {
    for bar in &BARS {
        let mut page = Page::new();
        push_bar(&mut page, *bar);
        page.push(b" ");
        add(rt, texts, &page);
    }
}

/// Adds the reasons why a line of a script is not a move, each with a space.
fn add_kinds(rt: &impl Abort, texts: &mut Vec<u8>) {
    for kind in &KINDS {
        let mut page = Page::new();
        push_script(&mut page, *kind);
        page.push(b" ");
        add(rt, texts, &page);
    }
}

#[test]
fn ends_bars_and_kinds(rt: HostRuntime) {
    let mut texts = Vec::new(rt.alloc());
    add_ends(&rt, &mut texts);
    add_bars(&rt, &mut texts);
    add_kinds(&rt, &mut texts);
    assert!(rt; texts.as_slice() == TEXTS.as_bytes(), "other texts");
}
