// The number of a name among the names that program words hold.
#![tactic(auto)]

ghost use Rattle.std.specs.Prelude.{◌≡◌};
ghost use Rattle.framed.specs.Common.{same};
ghost use Rattle.framed.specs.Symbols.{number_in};
ghost use Rattle.trees.specs.Held.{name_bytes};
ghost use Rattle.look_names.specs.Names.{names_held};

use words::wide;

// The bytes are those of name k.
fn is_name(p: &[u32], k: u32, w: &[u8]) -> bool
    ensures { result ≡ same (name_bytes p.now k) w.now }
{
    let n = tables::name_length(p, k);
    if wide(n) != w.len() {
        return false;
    }
    let mut i = 0u32;
    while i < n {
        let b = words::word(w, wide(i));
        if tables::name_byte(p, k, i) != (b as u32) {
            return false;
        }
        i += 1;
    }
    true
}

// The number of the name with these bytes; where the program lacks it, the number after the last.
pub fn name_number(p: &[u32], w: &[u8]) -> u32
    ensures { result ≡ number_in (names_held p.now) w.now }
{
    let n = tables::names(p);
    let mut k = 0u32;
    while k < n {
        if is_name(p, k, w) {
            return k;
        }
        k += 1;
    }
    n
}
