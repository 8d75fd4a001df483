//! The lines of the parts beside the stages: fetch, the lane, the cache and the sidings.
#![tactic(auto, unfolding(crate::specs::Picture::fetch_line, crate::specs::Picture::lane_line, crate::specs::Picture::cache_line, crate::specs::Picture::op_text, crate::specs::Picture::any_siding_line, crate::specs::Picture::siding_line))]

ghost use Rattle.std.specs.Prelude.{◌≡◌, ◌+◌, ◌*◌, ◌≤◌, ◌++◌, length, is_some};
ghost use Rattle.std.specs.List.{list_any};
ghost use Rattle.cf_report.specs.Picture.{fetch_line, or_dash, requests_text, lane_line, cached_text, kept_below, cache_line, answered_text, op_text, ops_text, any_siding_line, siding_line};
ghost use Rattle.cf_report.specs.Putting.{PutsText};
ghost use Rattle.texts.specs.Room.{page_room};

use crate::passengers::push_value;
use crate::putting::put_text;
use cf_bind::{Fetch, Op};
use cf_core::Core;
use cf_io::{Failed, Sink};
use texts::Page;

/// The line of fetch: where it runs, or that it waits.
pub fn fetch_page(fetch: Fetch) -> Page
    ensures { result ≡ fetch_line fetch }
{
    let mut page = Page::new();
    match fetch {
        Fetch::Running(pc) => {
            page.push(b"fetch ");
            page.push_hex(pc);
            page.push(b"\n");
        }
        Fetch::Waiting => page.push(b"fetch wait\n"),
    }
    page
}

/// Writes where fetch runs, or that it waits.
pub fn put_fetch<R: Sink>(fetch: Fetch, report: &mut R) -> Result<(), Failed>
    ensures { PutsText (R.written report.old) (R.written report.new)
        (R.faults report.old) (R.faults report.new) (fetch_line fetch) result }
{
    let page = fetch_page(fetch);
    put_text(page.bytes(), report)
}

/// Appends the requested registers, each after a space.
#[tactic(auto, using(crate::proofs::Listed::listing))]
fn push_requests(page: &mut Page, core: &Core)
    requires { length page.old + 4 * length core.now.state.lane ≤ page_room }
    ensures text { page.new ≡ page.old ++ requests_text core.now.state.lane }
    ensures size { length page.new ≤ length page.old + 4 * length core.now.state.lane }
{
    for request in 0..core.lane_len() {
        page.push(b" ");
        page.push_register_name(core.lane_at(request));
    }
}

/// Appends the requested registers, or `-`.
#[tactic(auto, using(crate::proofs::Listed::listed))]
fn push_lane(page: &mut Page, core: &Core)
    requires { length page.old + 258 ≤ page_room }
    ensures text { page.new ≡ page.old ++ or_dash (requests_text core.now.state.lane) }
    ensures size { length page.new ≤ length page.old + 258 }
{
    if core.lane_len() == 0 {
        page.push(b" -");
    } else {
        push_requests(page, core);
    }
}

/// The line of the requested registers, the next to be answered first.
pub fn lane_page(core: &Core) -> Page
    ensures { result ≡ lane_line core.now.state.lane }
{
    let mut page = Page::new();
    page.push(b"lane");
    push_lane(&mut page, core);
    page.push(b"\n");
    page
}

/// Writes the requested registers, the next to be answered first.
pub(crate) fn put_lane<R: Sink>(core: &Core, report: &mut R) -> Result<(), Failed>
    ensures { PutsText (R.written report.old) (R.written report.new)
        (R.faults report.old) (R.faults report.new) (lane_line core.now.state.lane) result }
{
    let page = lane_page(core);
    put_text(page.bytes(), report)
}

/// Appends a register after a space, if it is cached.
fn push_kept(page: &mut Page, register: u8, kept: Option<u32>)
    requires { length page.old + 13 ≤ page_room }
    ensures text { page.new ≡ page.old ++ cached_text register kept }
    ensures size { length page.new ≤ length page.old + 13 }
{
    if let Some(value) = kept {
        page.push(b" ");
        push_value(page, register, value);
    }
}

/// Appends the cached registers.
fn push_cache(page: &mut Page, core: &Core)
    requires { length page.old + 416 ≤ page_room }
    ensures text { page.new ≡ page.old ++ kept_below 32 core.now.state.cache }
    ensures size { length page.new ≤ length page.old + 416 }
{
    for register in 0..32 {
        push_kept(page, register, core.cached(register));
    }
}

/// The line of the cached registers, ascending.
pub fn cache_page(core: &Core) -> Page
    ensures { result ≡ cache_line core.now.state.cache }
{
    let mut page = Page::new();
    page.push(b"cache");
    push_cache(&mut page, core);
    if page.bytes().len() == 5 {
        page.push(b" -");
    }
    page.push(b"\n");
    page
}

/// Writes the cached registers, ascending.
pub(crate) fn put_cache<R: Sink>(core: &Core, report: &mut R) -> Result<(), Failed>
    ensures { PutsText (R.written report.old) (R.written report.new)
        (R.faults report.old) (R.faults report.new) (cache_line core.now.state.cache) result }
{
    let page = cache_page(core);
    put_text(page.bytes(), report)
}

fn push_op(page: &mut Page, cell: &Option<Op>)
    requires { length page.old + 10 ≤ page_room }
    ensures text { page.new ≡ page.old ++ op_text cell.now }
    ensures size { length page.new ≤ length page.old + 10 }
{
    match cell {
        Some(op) => {
            page.push(b" ");
            page.push_hex(op.pc);
            if op.answer.is_some() {
                page.push(b"*");
            }
        }
        None => page.push(b" -"),
    }
}

/// Appends the cells of a siding in order.
fn push_ops(page: &mut Page, ops: &[Option<Op>])
    requires { length page.old + 10 * length ops.now ≤ page_room }
    ensures text { page.new ≡ page.old ++ ops_text ops.now }
    ensures size { length page.new ≤ length page.old + 10 * length ops.now }
{
    for cell in ops {
        push_op(page, cell);
    }
}

fn has_operation(ops: &[Option<Op>]) -> bool
    ensures { result ≡ list_any is_some ops.now }
{
    ops.iter().any(|cell| cell.is_some())
}

/// The line of a siding with its cells, at most eight; a siding without an operation has a line too.
pub fn any_siding_page(siding: u32, ops: &[Option<Op>]) -> Page
    requires { length ops.now ≤ 8 }
    ensures { result ≡ any_siding_line siding ops.now }
{
    let mut page = Page::new();
    page.push(b"siding ");
    page.push_decimal(u64::from(siding));
    push_ops(&mut page, ops);
    page.push(b"\n");
    page
}

fn siding_page(siding: u32, ops: &[Option<Op>]) -> Page
    requires { length ops.now ≤ 8 }
    ensures { result ≡ siding_line siding ops.now }
{
    if !has_operation(ops) {
        return Page::new();
    }
    any_siding_page(siding, ops)
}

/// Writes the line of a siding with its cells, at most eight, and nothing for one without an operation.
pub fn put_siding<R: Sink>(siding: u32, ops: &[Option<Op>], report: &mut R) -> Result<(), Failed>
    requires { length ops.now ≤ 8 }
    ensures { PutsText (R.written report.old) (R.written report.new)
        (R.faults report.old) (R.faults report.new) (siding_line siding ops.now) result }
{
    let page = siding_page(siding, ops);
    put_text(page.bytes(), report)
}
