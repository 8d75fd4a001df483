//! The lines of the lane and of the cache.
#![tactic(auto, unfolding(cf_report::specs::Picture::lane_line, cf_report::specs::Picture::cache_line))]

ghost use Rattle.std.specs.Prelude.{◌≡◌, ◌+◌, ◌*◌, ◌≤◌, ◌++◌, length};
ghost use Rattle.cf_semantics.specs.state.Passengers.{cached as cached_in};
ghost use Rattle.cf_report.specs.Passengers.{value_text};
ghost use Rattle.cf_report.specs.Picture.{or_dash, requests_text, lane_line, cached_text, kept_below, cache_line};
ghost use Rattle.texts.specs.Room.{page_room};

use texts::Page;

/// Appends the requested registers, each after a space.
fn push_requests(page: &mut Page, lane: &[u8])
    requires { length page.old + 4 * length lane.now ≤ page_room }
    ensures text { page.new ≡ page.old ++ requests_text lane.now }
    ensures size { length page.new ≤ length page.old + 4 * length lane.now }
{
    for request in lane {
        page.push(b" ");
        page.push_register_name(*request);
    }
}

/// Appends the requested registers, or `-`.
#[tactic(auto, using(cf_report::proofs::Listed::listed))]
fn push_lane(page: &mut Page, lane: &[u8])
    requires room { length page.old + 258 ≤ page_room }
    requires few { length lane.now ≤ 64 }
    ensures text { page.new ≡ page.old ++ or_dash (requests_text lane.now) }
    ensures size { length page.new ≤ length page.old + 258 }
{
    if lane.is_empty() {
        page.push(b" -");
    } else {
        push_requests(page, lane);
    }
}

/// The line of the requested registers, the next to be answered first.
pub(crate) fn lane_page(lane: &[u8]) -> Page
    requires { length lane.now ≤ 64 }
    ensures { result ≡ lane_line lane.now }
{
    let mut page = Page::new();
    page.push(b"lane");
    push_lane(&mut page, lane);
    page.push(b"\n");
    page
}

/// The cached value of a register, if there is one.
fn cached(cache: &[Option<u32>; 32], register: u8) -> Option<u32>
    ensures { result ≡ cached_in cache.now register }
{
    match cache.get(register as usize) {
        Some(value) => *value,
        None => None,
    }
}

/// Appends a register with its value.
fn push_value(page: &mut Page, register: u8, value: u32)
    requires { length page.old + 12 ≤ page_room }
    ensures text { page.new ≡ page.old ++ value_text register value }
    ensures size { length page.new ≤ length page.old + 12 }
{
    page.push_register_name(register);
    page.push(b"=");
    page.push_hex(value);
}

/// Appends a register after a space, if it is cached.
fn push_kept(page: &mut Page, register: u8, kept: Option<u32>)
    requires { length page.old + 13 ≤ page_room }
    ensures text { page.new ≡ page.old ++ cached_text register kept }
    ensures size { length page.new ≤ length page.old + 13 }
{
    if let Some(value) = kept {
        page.push(b" ");
        push_value(page, register, value);
    }
}

/// Appends the cached registers.
fn push_cache(page: &mut Page, cache: &[Option<u32>; 32])
    requires { length page.old + 416 ≤ page_room }
    ensures text { page.new ≡ page.old ++ kept_below 32 cache.now }
    ensures size { length page.new ≤ length page.old + 416 }
{
    for register in 0..32 {
        push_kept(page, register, cached(cache, register));
    }
}

/// The line of the cached registers, ascending.
pub(crate) fn cache_page(cache: &[Option<u32>; 32]) -> Page
    ensures { result ≡ cache_line cache.now }
{
    let mut page = Page::new();
    page.push(b"cache");
    push_cache(&mut page, cache);
    if page.bytes().len() == 5 {
        page.push(b" -");
    }
    page.push(b"\n");
    page
}
