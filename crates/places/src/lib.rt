// Places in well-formed program words, for code that reads expressions, their slots, and codes.
#![tactic(auto)]

ghost use Rattle.std.specs.Prelude.{◌≡◌};
ghost use Rattle.places.specs.Places.{first_place};

// The place of the first instruction of code k, none where there is no such code.
pub fn first_place(p: &[u32], k: u32) -> u32
    ensures { result ≡ first_place p.now k }
{
    if tables::codes(p) <= k {
        return 0;
    }
    tables::code_first(p, k)
}
