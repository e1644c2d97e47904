// Decides whether program words and literal bytes are well-formed (document 01: whole), of any lengths.
#![tactic(auto)]

ghost use Rattle.std.specs.Prelude.{◌≡◌};
ghost use Rattle.program_form.specs.WellFormed.{program_well_formed};

use program_entries::entries_ok;
use program_tests::parts_ok;

pub fn program_well_formed(p: &[u32], l: &[u8]) -> bool
    ensures { result ≡ program_well_formed p.now l.now }
{
    if p.len() != 16384 {
        return false;
    }
    if l.len() != 8192 {
        return false;
    }
    entries_ok(p, l) && parts_ok(p)
}
