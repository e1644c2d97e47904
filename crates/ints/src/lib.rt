// The integer that a payload word holds, and back.
#![tactic(auto, unfolding(crate::specs::Ints::int_of, crate::specs::Ints::word_of))]

ghost use Rattle.std.specs.Prelude.{◌≡◌};
ghost use Rattle.ints.specs.Ints.{int_of, word_of};

pub fn int_of(w: u32) -> i32
    ensures { result ≡ int_of w }
{
    w.cast_signed()
}

pub fn word_of(n: i32) -> u32
    ensures { result ≡ word_of n }
{
    n.cast_unsigned()
}
