//! The laws of division, each the contract of a function that does nothing.
ghost use Rattle.std.specs.Prelude.{◌≡◌, ◌≢◌, ℤ, pos};
ghost use Rattle.rv_mul.specs.Products.{Divides, quotient as quotient_of, remainder as remainder_of};

/// If the divisor is not 0, the quotient and the remainder of two integers are those that the manual defines.
#[tactic(auto, using(crate::proofs::Division::quotient_divides))]
pub fn quotient_and_remainder()
    ensures { (x y : ℤ) → y ≢ pos 0 → Divides x y (quotient_of x y) (remainder_of x y) }
{}

/// No other numbers are that quotient and that remainder.
pub fn one_quotient_and_remainder()
    ensures quotient { (x y q r : ℤ) → Divides x y q r → q ≡ quotient_of x y }
    ensures remainder { (x y q r : ℤ) → Divides x y q r → r ≡ remainder_of x y }
{}
