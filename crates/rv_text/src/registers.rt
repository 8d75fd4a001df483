//! How a register is spelled.
#![tactic(auto, unfolding(crate::specs::Registers::register_numbered, crate::specs::Registers::register_padded, crate::specs::Registers::register_of))]

ghost use Rattle.std.specs.Prelude.{◌≡◌, ◌<◌, IfSome, ◌&&◌, length, codes, nat_eq, nat_lt};
ghost use Rattle.std.specs.List.{starts_with};
ghost use Rattle.rv_text.specs.Registers.{usual_names, register_numbered, register_padded, register_of};
ghost use Rattle.rv_text.specs.Tables.{look_up};

use crate::numbers::numeral;
use crate::tables::look_up;

/// The registers' names in the calling convention.
const USUAL_NAMES: [(&[u8], u8); 33] = [
    (b"zero", 0),
    (b"ra", 1),
    (b"sp", 2),
    (b"gp", 3),
    (b"tp", 4),
    (b"t0", 5),
    (b"t1", 6),
    (b"t2", 7),
    (b"s0", 8),
    (b"fp", 8),
    (b"s1", 9),
    (b"a0", 10),
    (b"a1", 11),
    (b"a2", 12),
    (b"a3", 13),
    (b"a4", 14),
    (b"a5", 15),
    (b"a6", 16),
    (b"a7", 17),
    (b"s2", 18),
    (b"s3", 19),
    (b"s4", 20),
    (b"s5", 21),
    (b"s6", 22),
    (b"s7", 23),
    (b"s8", 24),
    (b"s9", 25),
    (b"s10", 26),
    (b"s11", 27),
    (b"t3", 28),
    (b"t4", 29),
    (b"t5", 30),
    (b"t6", 31),
];

#[tactic(auto, using(crate::proofs::Spellings::registers))]
fn usual_register(word: &[u8]) -> Option<u8>
    ensures value { result ≡ look_up usual_names word.now }
    ensures register { IfSome result (λ r. r < 32) }
{
    look_up(&USUAL_NAMES, word)
}

fn is_padded(digits: &[u8]) -> bool
    ensures { result ≡ (starts_with nat_eq digits.now (codes "0") && nat_lt 1 (length digits.now)) }
{
    digits.starts_with(b"0") && digits.len() > 1
}

fn register_numbered(digits: &[u8]) -> Option<u8>
    ensures value { result ≡ register_numbered digits.now }
    ensures register { IfSome result (λ r. r < 32) }
{
    if is_padded(digits) {
        return None;
    }
    let number = numeral(digits, 10, 2)?;
    if number < 32 {
        Some(number as u8)
    } else {
        None
    }
}

fn register_padded(digits: &[u8]) -> Option<u8>
    ensures value { result ≡ register_padded digits.now }
    ensures register { IfSome result (λ r. r < 32) }
{
    if is_padded(digits) {
        register_numbered(&digits[1..])
    } else {
        register_numbered(digits)
    }
}

/// The register that a word spells: `x` and its number, which may have one leading zero, or its name in the calling
/// convention. It is `None` for any other word.
pub fn read_register(word: &[u8]) -> Option<u8>
    ensures value { result ≡ register_of word.now }
    ensures register { IfSome result (λ r. r < 32) }
{
    match word.strip_prefix(b"x") {
        Some(digits) => register_padded(digits),
        None => usual_register(word),
    }
}
