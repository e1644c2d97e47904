// Integers of 32 bits with exact results: what does not fit ends 33.
#![tactic(auto)]

ghost use Rattle.std.specs.Prelude.{◌≡◌, ◌+ℤ◌, ◌-ℤ◌, ◌*ℤ◌};
ghost use Rattle.std.specs.Int.Signed.{lt_z};
ghost use Rattle.framed.specs.Values.{same_integer};
ghost use Rattle.bounded.specs.Operations.{ranged};
ghost use Rattle.arith.specs.Arith.{outcome, divided, nonzero};

use framed::End;

pub fn plus(a: i32, b: i32) -> Result<i32, End>
    ensures { outcome result ≡ ranged (a +ℤ b) }
{
    a.checked_add(b).ok_or(End::IntegerRange)
}

pub fn minus(a: i32, b: i32) -> Result<i32, End>
    ensures { outcome result ≡ ranged (a -ℤ b) }
{
    a.checked_sub(b).ok_or(End::IntegerRange)
}

pub fn times(a: i32, b: i32) -> Result<i32, End>
    ensures { outcome result ≡ ranged (a *ℤ b) }
{
    a.checked_mul(b).ok_or(End::IntegerRange)
}

// Rounds towards zero; a divisor of 0 ends 32.
pub fn over(a: i32, b: i32) -> Result<i32, End>
    ensures { outcome result ≡ divided a b }
{
    if b == 0 {
        return Err(End::DivisorZero);
    }
    a.checked_div(b).ok_or(End::IntegerRange)
}

pub fn less(a: i32, b: i32) -> bool
    ensures { result ≡ lt_z a b }
{
    a < b
}

pub fn same(a: i32, b: i32) -> bool
    ensures { result ≡ same_integer a b }
{
    a == b
}

// All but 0 is true.
pub fn nonzero(a: i32) -> bool
    ensures { result ≡ nonzero a }
{
    a != 0
}
