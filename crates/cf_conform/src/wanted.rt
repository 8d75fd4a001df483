//! The line that an observation should be.
#![tactic(auto, unfolding(crate::specs::Wanted::wanted_line, crate::specs::Wanted::ended_line))]

ghost use Rattle.std.specs.Prelude.{◌≡◌, ◌<◌, ◌≤◌};
ghost use Rattle.cf_conform.specs.Wanted.{cell_line, ended_line as text_of_end, register_wanted, siding_wanted, stage_wanted, latest_wanted, end_wanted, wanted_line};

use crate::progress::LatestRetired;
use cf_bind::End;
use cf_core::Core;
use cf_log::ObservedPart;
use cf_report::{
    any_siding_page, any_stage_page, cache_page, fetch_page, lane_page, register_page,
};
use texts::{Page, retirement_line};

/// The line of the instruction that retired last.
fn latest_line(latest: Option<LatestRetired>) -> Option<Page>
    ensures { result ≡ latest_wanted latest }
{
    match latest {
        Some(LatestRetired { number, retired }) => Some(retirement_line(
            number,
            retired.pc,
            retired.word,
            retired.reg,
            retired.value,
        )),
        None => None,
    }
}

/// The line of a stage, if there is one of this number.
fn stage_line(core: &Core, stage: Option<u32>) -> Option<Page>
    ensures { result ≡ stage_wanted core.now.plan core.now.state stage }
{
    match stage {
        Some(stage) => {
            if 0 < stage && stage <= core.layout().stages() {
                Some(any_stage_page(stage, &core.stage(stage)))
            } else {
                None
            }
        }
        None => None,
    }
}

/// The line of a siding, if there is one of this number.
fn siding_line(core: &Core, siding: Option<u32>) -> Option<Page>
    ensures { result ≡ siding_wanted core.now.plan core.now.state siding }
{
    match siding {
        Some(siding) => {
            if siding < core.layout().siding_count() {
                Some(any_siding_page(siding, core.siding(siding)))
            } else {
                None
            }
        }
        None => None,
    }
}

/// The line of a register.
fn register_line(core: &Core, register: u8) -> Option<Page>
    ensures { result ≡ register_wanted core.now.state register }
{
    match core.regs().get(usize::from(register)) {
        Some(value) => Some(register_page(register, *value)),
        None => None,
    }
}

/// The line that says how the program ended.
fn end_page(end: End) -> Page
    ensures { result ≡ text_of_end end }
{
    let mut page = Page::new();
    page.push(b"ended ");
    match end {
        End::Exit(status) => page.push_counted(b"exit ", u64::from(status)),
        End::Trap { cause, pc, detail } => page.push_trap(cause, pc, detail),
    }
    page
}

/// The same line, if the program has ended.
fn end_line(ending: Option<End>) -> Option<Page>
    ensures { result ≡ end_wanted ending }
{
    match ending {
        Some(end) => Some(end_page(end)),
        None => None,
    }
}

/// The line that an observation of this part should be, if the processor has that part and there is something to observe.
pub fn wanted_line(core: &Core, latest: Option<LatestRetired>, part: ObservedPart) -> Option<Page>
    ensures { result ≡ wanted_line core.now.plan core.now.state latest part }
{
    match part {
        ObservedPart::Retire => latest_line(latest),
        ObservedPart::Fetch => Some(fetch_page(core.fetch())),
        ObservedPart::Lane => Some(lane_page(core)),
        ObservedPart::Cache => {
            if core.layout().cache() {
                Some(cache_page(core))
            } else {
                None
            }
        }
        ObservedPart::Stage(stage) => stage_line(core, stage),
        ObservedPart::Siding(siding) => siding_line(core, siding),
        ObservedPart::Register(register) => register_line(core, register),
        ObservedPart::Ended => end_line(core.ending()),
    }
}
