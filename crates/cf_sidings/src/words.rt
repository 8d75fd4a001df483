//! Words with one bit for each cell of the sidings: bit 8k + c for cell c of siding k.

ghost use Rattle.std.specs.Prelude.{◌≡◌, ℕ, ◌+◌, ◌-◌, ◌*◌, ◌/◌, ◌%◌, ◌<◌, ◌≤◌, ◌&&◌, ◌||◌, length, nat_eq, nat_lt, if◌then◌else◌};
ghost use Rattle.cf_layout.specs.Layout.{cells_of};
ghost use Rattle.cf_layout.specs.Words.{has_bit};

use cf_layout::Layout;

/// The word with the bit of a cell set, or not set.
#[inline(always)]
#[tactic(auto, using(crate::proofs::Bits::cell_bits))]
pub(crate) fn with_cell(word: u64, k: u32, c: usize, set: bool) -> u64
    requires siding { k < 8 }
    requires cell { c < 8 }
    ensures { (j : ℕ) → has_bit result j ≡ (if nat_eq j (8 * k + c) then set else has_bit word j) }
{
    let bit = 1 << (8 * k + c as u32);
    if set { word | bit } else { word & !bit }
}

/// How many cells a siding has: 1 to 8. There are 8 sidings at most.
#[tactic(auto, using(crate::proofs::Small::sized))]
fn cells(layout: &Layout, k: u32) -> usize
    requires { k < length layout.now.sidings }
    ensures cells { result ≡ cells_of layout.now k }
    ensures some { 1 ≤ result }
    ensures few { result ≤ 8 }
    ensures few_sidings { k < 8 }
{
    let _stages = layout.stages();
    layout.cells_of(k) as usize
}

/// The word with the cells of one more siding that have a next one.
fn with_siding(layout: &Layout, k: u32, word: u64) -> u64
    requires { k < length layout.now.sidings }
    ensures { (j : ℕ) → has_bit result j ≡ ((nat_eq (j / 8) k && nat_lt (j % 8 + 1) (cells_of layout.now k)) || has_bit word j) }
{
    let mut word = word;
    for c in 1..cells(layout, k) {
        word = with_cell(word, k, c - 1, true);
    }
    word
}

/// The cells that have a next one in their siding.
pub(crate) fn inner_cells(layout: &Layout) -> u64
    ensures { (j : ℕ) → has_bit result j ≡ nat_lt (j % 8 + 1) (cells_of layout.now (j / 8)) }
{
    let mut word = 0;
    for k in 0..layout.siding_count() {
        word = with_siding(layout, k, word);
    }
    word
}
