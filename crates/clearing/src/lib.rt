// A lent memory cleared: every word or byte becomes 0.
#![tactic(auto, unfolding(emission::specs::Emit::cleared))]

ghost use Rattle.std.specs.Prelude.{◌≡◌, length};
ghost use Rattle.emission.specs.Emit.{cleared};

pub fn clear_words(m: &mut [u32])
    ensures { m.new ≡ cleared (length m.old) }
{
    m.fill(0u32);
}

pub fn clear_bytes(m: &mut [u8])
    ensures { m.new ≡ cleared (length m.old) }
{
    m.fill(0u8);
}
