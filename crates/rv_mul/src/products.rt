//! Products, quotients and remainders of words (RISC-V Unprivileged ISA Manual, "M" Extension).
#![tactic(auto, using(crate::proofs::Bits::bits), unfolding(crate::specs::Products::product_of))]

ghost use Rattle.std.specs.Prelude.{◌≡◌, ◌<◌, ◌/◌, ◌^◌, pos, ◌*ℤ◌};
ghost use Rattle.std.specs.Int.{w32, IsNonZero};
ghost use Rattle.rv_mul.specs.Products.{lower_word, upper_word, quotient, remainder, product_of};

use rv_inst::MulOp;

#[inline(always)]
fn low_product(a: u32, b: u32) -> u32
    ensures { result ≡ lower_word (pos a *ℤ pos b) }
{
    a.wrapping_mul(b)
}

#[inline(always)]
fn upper_half(bits: u64) -> u32
    ensures { result ≡ bits / 2 ^ 32 }
{
    (bits >> 32) as u32
}

#[inline(always)]
fn high_product(a: u32, b: u32) -> u32
    ensures { result ≡ upper_word (pos a *ℤ pos b) }
{
    upper_half(u64::from(a) * u64::from(b))
}

#[inline(always)]
fn high_product_signed(a: i32, b: i32) -> u32
    ensures { result ≡ upper_word (a *ℤ b) }
{
    upper_half((i64::from(a) * i64::from(b)).cast_unsigned())
}

#[inline(always)]
fn high_product_mixed(a: i32, b: u32) -> u32
    ensures { result ≡ upper_word (a *ℤ pos b) }
{
    upper_half((i64::from(a) * i64::from(b)).cast_unsigned())
}

#[inline(always)]
fn quotient_signed(a: i32, b: i32) -> u32
    requires { IsNonZero w32 b }
    ensures { result ≡ lower_word (quotient a b) }
{
    a.wrapping_div(b).cast_unsigned()
}

#[inline(always)]
fn remainder_signed(a: i32, b: i32) -> u32
    requires { IsNonZero w32 b }
    ensures { result ≡ lower_word (remainder a b) }
{
    a.wrapping_rem(b).cast_unsigned()
}

#[inline(always)]
fn quotient_unsigned(a: u32, b: u32) -> u32
    requires { 0 < b }
    ensures { result ≡ lower_word (quotient (pos a) (pos b)) }
{
    a / b
}

#[inline(always)]
fn remainder_unsigned(a: u32, b: u32) -> u32
    requires { 0 < b }
    ensures { result ≡ lower_word (remainder (pos a) (pos b)) }
{
    a % b
}

/// The result of the operation on the words `a` and `b`. A quotient by 0 has all bits set, and a remainder by 0 is `a`.
#[inline(always)]
pub fn product(op: MulOp, a: u32, b: u32) -> u32
    ensures { result ≡ product_of op a b }
{
    let signed_a = a.cast_signed();
    let signed_b = b.cast_signed();
    match op {
        MulOp::Mul => low_product(a, b),
        MulOp::Mulh => high_product_signed(signed_a, signed_b),
        MulOp::Mulhsu => high_product_mixed(signed_a, b),
        MulOp::Mulhu => high_product(a, b),
        MulOp::Div | MulOp::Divu if b == 0 => u32::MAX,
        MulOp::Rem | MulOp::Remu if b == 0 => a,
        MulOp::Div => quotient_signed(signed_a, signed_b),
        MulOp::Divu => quotient_unsigned(a, b),
        MulOp::Rem => remainder_signed(signed_a, signed_b),
        MulOp::Remu => remainder_unsigned(a, b),
    }
}
