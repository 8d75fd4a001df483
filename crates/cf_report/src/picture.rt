//! A picture of the processor.
#![tactic(auto, unfolding(crate::specs::Picture::picture))]

ghost use Rattle.std.specs.Prelude.{◌≡◌};
ghost use Rattle.cf_report.specs.Picture.{cache_text, stage_lines, siding_lines, picture};
ghost use Rattle.cf_report.specs.Putting.{PutsText};

use crate::beside::{put_cache, put_fetch, put_lane, put_siding};
use crate::stages::put_stage;
use cf_core::Core;
use cf_io::{Failed, Sink};

/// Writes the cached registers, if the layout has the cache.
fn put_kept<R: Sink>(core: &Core, report: &mut R) -> Result<(), Failed>
    ensures { PutsText (R.written report.old) (R.written report.new)
        (R.faults report.old) (R.faults report.new)
        (cache_text core.now.plan.cache core.now.state.cache) result }
{
    if core.layout().cache() {
        put_cache(core, report)
    } else {
        Ok(())
    }
}

/// Writes the stages, the highest first.
fn put_stages<R: Sink>(core: &Core, report: &mut R) -> Result<(), Failed>
    ensures { PutsText (R.written report.old) (R.written report.new)
        (R.faults report.old) (R.faults report.new) (stage_lines 1 core.now.state.cells) result }
{
    let mut stage = core.layout().stages();
    while stage > 0 {
        put_stage(stage, &core.stage(stage), report)?;
        stage -= 1;
    }
    Ok(())
}

/// Writes the sidings.
fn put_sidings<R: Sink>(core: &Core, report: &mut R) -> Result<(), Failed>
    ensures { PutsText (R.written report.old) (R.written report.new)
        (R.faults report.old) (R.faults report.new) (siding_lines 0 core.now.state.sidings) result }
{
    for siding in 0..core.layout().siding_count() {
        put_siding(siding, core.siding(siding), report)?;
    }
    Ok(())
}

/// Writes a picture of the processor: where fetch runs, the lane of requests, the cached registers if the layout has
/// the cache, the stages that are not empty from the highest down, and the sidings with an operation. After `Failed` a
/// prefix of it was written.
pub fn put_picture<R: Sink>(core: &Core, report: &mut R) -> Result<(), Failed>
    ensures { PutsText (R.written report.old) (R.written report.new)
        (R.faults report.old) (R.faults report.new) (picture core.now.plan core.now.state) result }
{
    put_fetch(core.fetch(), report)?;
    put_lane(core, report)?;
    put_kept(core, report)?;
    put_stages(core, report)?;
    put_sidings(core, report)
}
