//! The picture of a state.
#![tactic(auto, unfolding(cf_report::specs::Picture::picture, crate::specs::Drawing::parts_text))]

ghost use Rattle.std.specs.Prelude.{◌≡◌, ◌<◌, ◌≤◌, All, Some, length, slice_get};
ghost use Rattle.cf_report.specs.Picture.{cache_line, cache_text, lane_line, picture, siding_lines, stage_lines};
ghost use Rattle.cf_report.specs.Putting.{PutsText};
ghost use Rattle.cf_semantics.specs.state.State.{cell_at as at_stage};
ghost use Rattle.order_report.specs.Drawing.{IsDrawable, IsShort, parts_text};

use crate::beside::{cache_page, lane_page};
use cf_bind::{Cell, Fetch, Op};
use cf_io::{Failed, Sink, put_all};
use cf_layout::LooseLayout;
use cf_report::{put_fetch, put_siding, put_stage};
use order_model::{SidingOps, Situation};

/// Writes the requested registers, the next to be answered first.
fn put_lane<R: Sink>(lane: &[u8], report: &mut R) -> Result<(), Failed>
    requires { length lane.now ≤ 64 }
    ensures { PutsText (R.written report.old) (R.written report.new)
        (R.faults report.old) (R.faults report.new) (lane_line lane.now) result }
{
    let page = lane_page(lane);
    put_all(report, page.bytes())
}

/// Writes the cached registers, ascending.
fn put_cache<R: Sink>(cache: &[Option<u32>; 32], report: &mut R) -> Result<(), Failed>
    ensures { PutsText (R.written report.old) (R.written report.new)
        (R.faults report.old) (R.faults report.new) (cache_line cache.now) result }
{
    let page = cache_page(cache);
    put_all(report, page.bytes())
}

/// The same, if the layout has the cache.
fn put_kept<R: Sink>(
    has_cache: bool,
    cache: &[Option<u32>; 32],
    report: &mut R,
) -> Result<(), Failed>
    ensures { PutsText (R.written report.old) (R.written report.new)
        (R.faults report.old) (R.faults report.new) (cache_text has_cache cache.now) result }
{
    if has_cache {
        put_cache(cache, report)
    } else {
        Ok(())
    }
}

/// What is in a stage.
fn cell_at(cells: &[Cell], stage: u32) -> Cell
    requires low { 0 < stage }
    requires high { stage ≤ length cells.now }
    ensures { Some result ≡ at_stage cells.now stage }
{
    cells[stage as usize - 1]
}

/// Writes the stages, the highest first.
fn put_stages<R: Sink>(cells: &[Cell], report: &mut R) -> Result<(), Failed>
    requires { length cells.now ≤ 32 }
    ensures { PutsText (R.written report.old) (R.written report.new)
        (R.faults report.old) (R.faults report.new) (stage_lines 1 cells.now) result }
{
    let mut stage = cells.len() as u32;
    while stage > 0 {
        put_stage(stage, &cell_at(cells, stage), report)?;
        stage -= 1;
    }
    Ok(())
}

/// The cells of a siding.
fn ops_of(sidings: &[SidingOps], siding: u32) -> &[Option<Op>]
    requires inside { siding < length sidings.now }
    requires short { All IsShort sidings.now }
    ensures cells { Some result.now ≡ slice_get sidings.now siding }
    ensures short { length result.now ≤ 8 }
{
    sidings[siding as usize].cells()
}

/// Writes the sidings.
fn put_sidings<R: Sink>(sidings: &[SidingOps], report: &mut R) -> Result<(), Failed>
    requires few { length sidings.now ≤ 8 }
    requires short { All IsShort sidings.now }
    ensures { PutsText (R.written report.old) (R.written report.new)
        (R.faults report.old) (R.faults report.new) (siding_lines 0 sidings.now) result }
{
    for siding in 0..sidings.len() as u32 {
        put_siding(siding, ops_of(sidings, siding), report)?;
    }
    Ok(())
}

/// Writes what a picture shows, part after part.
fn put_parts<R: Sink>(
    fetch: Fetch,
    lane: &[u8],
    has_cache: bool,
    cache: &[Option<u32>; 32],
    cells: &[Cell],
    sidings: &[SidingOps],
    report: &mut R,
) -> Result<(), Failed>
    requires lane { length lane.now ≤ 64 }
    requires stages { length cells.now ≤ 32 }
    requires few { length sidings.now ≤ 8 }
    requires short { All IsShort sidings.now }
    ensures { PutsText (R.written report.old) (R.written report.new) (R.faults report.old) (R.faults report.new)
        (parts_text fetch lane.now has_cache cache.now cells.now sidings.now) result }
{
    put_fetch(fetch, report)?;
    put_lane(lane, report)?;
    put_kept(has_cache, cache, report)?;
    put_stages(cells, report)?;
    put_sidings(sidings, report)
}

/// Writes a picture of the state: where fetch runs, the lane of requests, the cached registers if the layout has the
/// cache, the stages that are not empty from the highest down, and the sidings with an operation. After `Failed` a
/// prefix of it was written.
pub(crate) fn put_picture<R: Sink>(
    layout: &LooseLayout,
    situation: &Situation,
    report: &mut R,
) -> Result<(), Failed>
    requires { IsDrawable situation.now }
    ensures { PutsText (R.written report.old) (R.written report.new)
        (R.faults report.old) (R.faults report.new) (picture layout.now situation.now) result }
{
    put_parts(
        situation.fetch,
        situation.lane.as_slice(),
        layout.cache(),
        &situation.cache,
        situation.cells.as_slice(),
        situation.sidings.as_slice(),
        report,
    )
}
