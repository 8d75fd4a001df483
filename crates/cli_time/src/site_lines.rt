//! The lines of what a time is made of.
#![tactic(auto, unfolding(crate::specs::SiteLines::busy_line, crate::specs::SiteLines::kinds_line))]

ghost use Rattle.std.specs.Prelude.{◌≡◌, ◌+◌, ◌<◌, ◌≤◌, ◌++◌, ◌∷◌, [], length};
ghost use Rattle.std.specs.List.{flat_map, zip};
ghost use Rattle.cli_reports.specs.Reporting.{PutsInto};
ghost use Rattle.run_scripts.specs.Kinds.{name_at, names};
ghost use Rattle.texts.specs.Room.{page_room};
ghost use Rattle.cf_timed.specs.Numbers.{number_at};
ghost use Rattle.cli_time.specs.SiteLines.{breakdown_text, busy_line, counts_text, falling_stages, kinds_line, siding_use_line, siding_numbers, sites_text, stage_use_line, use_line};

use crate::class_lines::put_classes;
use cf_io::{Failed, Sink, put_all};
use run_ledger::Breakdown;
use run_scripts::kind_name;
use texts::Page;

/// A place by its name and number, and how long it was in use.
fn busy_page(name: &[u8], number: u32, ticks: u64) -> Page
    requires { length name.now ≤ 10 }
    ensures { result ≡ busy_line name.now number ticks }
{
    let mut page = Page::new();
    page.push(name);
    page.push_decimal(u64::from(number));
    page.push_counted(b" busy ", ticks);
    page
}

/// How long the place of a number was in use.
fn ticks_at(numbers: &[u64], number: u32) -> u64
    ensures { result ≡ number_at numbers.now number }
{
    numbers.get(number as usize).copied().unwrap_or(0)
}

/// Writes the line of a place.
fn put_busy<R: Sink>(name: &[u8], number: u32, ticks: u64, report: &mut R) -> Result<(), Failed>
    requires { length name.now ≤ 10 }
    ensures { PutsInto R.Sink report.old report.new (busy_line name.now number ticks) result }
{
    let page = busy_page(name, number, ticks);
    put_all(report, page.bytes())
}

/// A stage by its number, and how long it was in use, waited and was empty.
#[tactic(auto, unfolding(crate::specs::SiteLines::use_line))]
fn use_page(number: u32, busy: u64, waiting: u64, empty: u64) -> Page
    ensures { result ≡ use_line number busy waiting empty }
{
    let mut page = Page::new();
    page.push(b"stage ");
    page.push_decimal(u64::from(number));
    page.push(b" busy ");
    page.push_decimal(busy);
    page.push(b" waiting ");
    page.push_decimal(waiting);
    page.push_counted(b" empty ", empty);
    page
}

/// Writes the line of a stage.
fn put_stage<R: Sink>(made: &Breakdown, stage: u32, report: &mut R) -> Result<(), Failed>
    ensures { PutsInto R.Sink report.old report.new (stage_use_line made.now stage) result }
{
    let page = use_page(
        stage,
        ticks_at(&made.stages, stage),
        ticks_at(&made.waiting, stage),
        ticks_at(&made.empty, stage),
    );
    put_all(report, page.bytes())
}

/// Writes the line of a siding.
fn put_siding<R: Sink>(made: &Breakdown, siding: u32, report: &mut R) -> Result<(), Failed>
    ensures { PutsInto R.Sink report.old report.new (siding_use_line made.now siding) result }
{
    put_busy(b"siding ", siding, ticks_at(&made.sidings, siding), report)
}

/// Writes the lines of the stages, the highest first.
fn put_stages<R: Sink>(made: &Breakdown, report: &mut R) -> Result<(), Failed>
    ensures { PutsInto R.Sink report.old report.new (flat_map (stage_use_line made.now) (falling_stages made.now)) result }
{
    let stages = made.layout.stages();
    for above in 0..stages {
        put_stage(made, stages - above, report)?;
    }
    Ok(())
}

/// Writes the lines of the sidings.
fn put_sidings<R: Sink>(made: &Breakdown, report: &mut R) -> Result<(), Failed>
    ensures { PutsInto R.Sink report.old report.new (flat_map (siding_use_line made.now) (siding_numbers made.now)) result }
{
    for siding in 0..made.layout.siding_count() {
        put_siding(made, siding, report)?;
    }
    Ok(())
}

/// A kind of move and how many there are, after a space; nothing if there are none.
#[tactic(auto, unfolding(crate::specs::SiteLines::counts_text))]
fn push_count(page: &mut Page, place: usize, number: u64)
    requires place { place < 14 }
    requires room { length page.old + 29 ≤ page_room }
    ensures text { page.new ≡ page.old ++ counts_text ((name_at place, number) ∷ []) }
    ensures size { length page.new ≤ length page.old + 29 }
{
    if number > 0 {
        page.push(b" ");
        page.push(kind_name(place));
        page.push(b"=");
        page.push_decimal(number);
    }
}

/// Those of all kinds.
fn push_counts(page: &mut Page, numbers: &[u64; 14])
    requires { length page.old ≤ 10 }
    ensures text { page.new ≡ page.old ++ counts_text (zip names numbers.now) }
    ensures size { length page.new ≤ length page.old + 406 }
{
    for place in 0..14 {
        push_count(page, place, numbers[place]);
    }
}

/// How many moves of each kind there are, after a name.
fn kinds_page(name: &[u8], numbers: &[u64; 14]) -> Page
    requires { length name.now ≤ 10 }
    ensures { result ≡ kinds_line name.now numbers.now }
{
    let mut page = Page::new();
    page.push(name);
    push_counts(&mut page, numbers);
    page.push(b"\n");
    page
}

/// Writes that line.
fn put_kinds<R: Sink>(name: &[u8], numbers: &[u64; 14], report: &mut R) -> Result<(), Failed>
    requires { length name.now ≤ 10 }
    ensures { PutsInto R.Sink report.old report.new (kinds_line name.now numbers.now) result }
{
    let page = kinds_page(name, numbers);
    put_all(report, page.bytes())
}

/// Writes the lines of what a time is made of.
fn put_breakdown<R: Sink>(made: &Breakdown, report: &mut R) -> Result<(), Failed>
    ensures { PutsInto R.Sink report.old report.new (breakdown_text made.now) result }
{
    put_stages(made, report)?;
    put_sidings(made, report)?;
    put_kinds(b"moves", &made.moves, report)?;
    put_classes(made, report)?;
    put_kinds(b"chain", &made.chain, report)
}

/// Writes the lines of what a time is made of, if that is shown: how long each stage, the highest first, was in use,
/// waited and was empty, and how long each siding was in use; how many moves of each kind were made; how long the
/// instructions of each class took; and how many moves of each kind are on a longest chain.
#[tactic(auto, unfolding(crate::specs::SiteLines::sites_text))]
pub(crate) fn put_sites<R: Sink>(sites: &Option<Breakdown>, report: &mut R) -> Result<(), Failed>
    ensures { PutsInto R.Sink report.old report.new (sites_text sites.now) result }
{
    match sites {
        Some(made) => put_breakdown(made, report),
        None => Ok(()),
    }
}
