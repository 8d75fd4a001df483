//! Whether two moves use a place of the processor in common.

ghost use Rattle.std.specs.Prelude.{◌≡◌, ◌↔◌, IsTrue, true, ℕ, ◌+◌, ◌-◌, ◌*◌, ◌/◌, ◌%◌, ◌<◌, ◌≤◌, ◌&&◌, ◌||◌, length, nat_eq, nat_lt};
ghost use Rattle.cf_layout.specs.Layout.{Plan, cells_of};
ghost use Rattle.cf_layout.specs.Words.{has_bit};
ghost use Rattle.cf_layout.specs.Accepted.{IsAccepted};
ghost use Rattle.cf_semantics.specs.state.Layouts.{port as port_of};
ghost use Rattle.cf_semantics.specs.moves.Sites.{Code, Fetching, Lane, Memory, SidingCell, Stage, among};
ghost use Rattle.cf_index.specs.Sites.{HasSites, shares, uses_place, ways_in, ways_out};

use crate::bits::with_bit;
use cf_bind::Move;
use cf_layout::Layout;
use rv_inst::Class;

/// The word of a stage: bit i - 1 for stage i.
#[inline(always)]
fn stage_word(i: u32) -> u64
    requires first { 1 ≤ i }
    requires last { i ≤ 32 }
    ensures { (k : ℕ) → has_bit result k ≡ nat_eq (k + 1) i }
{
    with_bit(0, i - 1, true)
}

/// The word of two stages.
#[inline(always)]
fn two_stages(i: u32, j: u32) -> u64
    requires first { 1 ≤ i }
    requires last { i ≤ 32 }
    requires other_first { 1 ≤ j }
    requires other_last { j ≤ 32 }
    ensures { (k : ℕ) → has_bit result k ≡ (nat_eq (k + 1) i || nat_eq (k + 1) j) }
{
    with_bit(stage_word(i), j - 1, true)
}

/// The stages that the move uses.
#[inline(always)]
#[tactic(auto, using(crate::proofs::UsedSites::stage_used, cf_layout::proofs::Words::no_bits))]
fn stages_used(layout: &Layout, mv: Move) -> u64
    requires { HasSites layout.now mv }
    ensures stages { (k : ℕ) → has_bit result k ≡ uses_place layout.now mv (Stage (k + 1)) }
    ensures accepted { IsAccepted layout.now }
{
    let top = layout.stages();
    match mv {
        Move::Issue(_) | Move::Exit => stage_word(1),
        Move::Emit | Move::Leave | Move::Serve => stage_word(top),
        Move::Climb(i) => two_stages(i, i + 1),
        Move::Fall(i) => two_stages(i, i - 1),
        Move::Meet(i) | Move::Execute(i) | Move::Send(i) | Move::Launch(i) | Move::Recover(i) =>
            stage_word(i),
        Move::Slide(_, _) | Move::Access => 0,
    }
}

/// The word of a cell of a siding: bit 8k + c for siding k, cell c.
#[inline(always)]
fn cell_word(k: u32, c: u32) -> u64
    requires siding { k < 8 }
    requires cell { c < 8 }
    ensures { (j : ℕ) → has_bit result j ≡ (nat_eq (j / 8) k && nat_eq (j % 8) c) }
{
    with_bit(0, 8 * k + c, true)
}

/// The word of a cell of a siding and the next one.
#[inline(always)]
fn two_cells(k: u32, c: u32) -> u64
    requires siding { k < 8 }
    requires cell { c + 1 < 8 }
    ensures { (j : ℕ) → has_bit result j ≡ (nat_eq (j / 8) k && (nat_eq (j % 8) c || nat_eq (j % 8) (c + 1))) }
{
    with_bit(cell_word(k, c), 8 * k + c + 1, true)
}

/// How many cells a siding has: 1 to 8. There are 8 sidings at most.
#[inline(always)]
fn cells(layout: &Layout, k: u32) -> u32
    requires { k < length layout.now.sidings }
    ensures cells { result ≡ cells_of layout.now k }
    ensures some { 1 ≤ result }
    ensures few { result ≤ 8 }
    ensures few_sidings { k < 8 }
{
    let _accepted = layout.stages();
    layout.cells_of(k)
}

/// The first cells of the sidings that launch at the stage.
#[inline(always)]
fn entries(layout: &Layout, i: u32) -> u64
    ensures { (j : ℕ) → has_bit result j ≡ among (SidingCell (j / 8) (j % 8)) (ways_in layout.now i) }
{
    let mut word = 0;
    for k in 0..layout.siding_count() {
        let _cells = cells(layout, k);
        word = with_bit(word, 8 * k, layout.launch_stage(k) == i);
    }
    word
}

/// The last cells of the sidings that recover at the stage.
#[inline(always)]
fn exits(layout: &Layout, i: u32) -> u64
    ensures { (j : ℕ) → has_bit result j ≡ among (SidingCell (j / 8) (j % 8)) (ways_out layout.now i) }
{
    let mut word = 0;
    for k in 0..layout.siding_count() {
        let last = cells(layout, k) - 1;
        word = with_bit(word, 8 * k + last, layout.recover_stage(k) == i);
    }
    word
}

/// The last cell of Memory's siding, at which the port to memory is.
#[inline(always)]
#[tactic(auto, unfolding(cf_semantics::specs::state::Layouts::port))]
fn port(layout: &Layout) -> u64
    ensures { (j : ℕ) → has_bit result j ≡ (nat_eq (j / 8) (port_of layout.now) && nat_eq (j % 8) (cells_of layout.now (port_of layout.now) - 1)) }
{
    let _accepted = layout.stages();
    match layout.siding_of(Class::Memory) {
        Some(k) => cell_word(k, cells(layout, k) - 1),
        None => 0,
    }
}

/// The cells of sidings that the move uses.
#[inline(always)]
#[tactic(auto, using(crate::proofs::UsedCells::cell_used, cf_layout::proofs::Words::no_bits))]
fn cells_used(layout: &Layout, mv: Move) -> u64
    requires { HasSites layout.now mv }
    ensures { (j : ℕ) → has_bit result j ≡ uses_place layout.now mv (SidingCell (j / 8) (j % 8)) }
{
    match mv {
        Move::Launch(i) => entries(layout, i),
        Move::Slide(k, c) => {
            let _cells = cells(layout, k);
            two_cells(k, c)
        }
        Move::Access => port(layout),
        Move::Recover(i) => exits(layout, i),
        _ => 0,
    }
}

/// Whether the move uses the lane.
#[inline(always)]
#[tactic(auto, using(crate::proofs::UsedSites::lane_used))]
fn uses_lane(mv: Move) -> bool
    ensures { (plan : Plan) → result ≡ uses_place plan mv Lane }
{
    matches!(mv, Move::Issue(_) | Move::Emit)
}

/// Whether the move uses what fetch does.
#[inline(always)]
#[tactic(auto, using(crate::proofs::UsedSites::fetch_used))]
fn uses_fetch(mv: Move) -> bool
    ensures { (plan : Plan) → result ≡ uses_place plan mv Fetching }
{
    matches!(mv, Move::Issue(_) | Move::Exit)
}

/// Whether the move uses the memory.
#[inline(always)]
#[tactic(auto, using(crate::proofs::UsedSites::memory_used))]
fn uses_memory(mv: Move) -> bool
    ensures { (plan : Plan) → result ≡ uses_place plan mv Memory }
{
    matches!(mv, Move::Access | Move::Serve)
}

/// Whether the move uses the code.
#[inline(always)]
#[tactic(auto, using(crate::proofs::UsedSites::code_used))]
fn uses_code(mv: Move) -> bool
    ensures { (plan : Plan) → result ≡ uses_place plan mv Code }
{
    matches!(mv, Move::Issue(_) | Move::Serve)
}

/// Whether the two words have a bit in common.
#[inline(always)]
fn overlap(word: u64, other: u64) -> bool
    ensures { IsTrue result ↔ ((k : ℕ) × (has_bit word k ≡ true) × (has_bit other k ≡ true)) }
{
    word & other != 0
}

/// Whether the two moves use a place of the processor in common: a stage or a cell of a siding that both read and may write,
/// the lane, what fetch does, the memory or the code. The layout has each stage and each cell that the two use.
#[inline(always)]
pub fn shares(layout: &Layout, a: Move, b: Move) -> bool
    requires first { HasSites layout.now a }
    requires second { HasSites layout.now b }
    ensures { result ≡ shares layout.now a b }
{
    let stages = overlap(stages_used(layout, a), stages_used(layout, b));
    let cells = overlap(cells_used(layout, a), cells_used(layout, b));
    let lane = uses_lane(a) & uses_lane(b);
    let fetch = uses_fetch(a) & uses_fetch(b);
    let memory = uses_memory(a) & uses_memory(b);
    let code = uses_code(a) & uses_code(b);
    stages | cells | lane | fetch | memory | code
}
