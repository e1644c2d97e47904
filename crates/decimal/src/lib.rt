// The decimal digits of an integer, with the sign of a negative one, in a small array that the caller lends; and how many bytes they are.
#![tactic(auto)]

ghost use Rattle.std.specs.Prelude.{◌≡◌, suc, ◌≤◌, length};
ghost use Rattle.framed.specs.Values.{digits_within, decimal};
ghost use Rattle.decimal.specs.Decimal.{Holds};

// The digits of a number at the end of the array, with room for a sign before them: where they begin.
pub fn digits(bytes: &mut [u8; 11], n: u32) -> usize
    ensures { Holds 1 bytes.new result (digits_within (suc n) n) }
{
    let mut start = 11usize;
    let mut m = n;
    // A while: what is left of the number ends it, and no count is known before.
    while 10 <= m {
        start -= 1;
        bytes[start] = (48 + m % 10) as u8;
        m /= 10;
    }
    start -= 1;
    bytes[start] = (48 + m) as u8;
    start
}

// The decimal integer at the end of the array: where it begins.
pub fn decimal(bytes: &mut [u8; 11], n: i32) -> usize
    ensures { Holds 0 bytes.new result (decimal n) }
{
    let start = digits(bytes, n.unsigned_abs());
    if 0 <= n {
        return start;
    }
    bytes[start - 1] = b'-';
    start - 1
}

// How many digits a number has, without finding them.
pub fn digit_count(n: u32) -> u32
    ensures count { result ≡ length (digits_within (suc n) n) }
    ensures most { result ≤ 10 }
{
    n.max(1).ilog10() + 1
}

// How many bytes the decimal integer has.
pub fn size(n: i32) -> u32
    ensures { result ≡ length (decimal n) }
{
    digit_count(n.unsigned_abs()) + u32::from(n < 0)
}
