// Where the strings of a source were read, in order, and how many there are.
#![tactic(auto)]

ghost use Rattle.strings.specs.Places.{Counted, Stored};

use words::wide;

// Keeps where a string was read: how many there are after a token of kind k, read at `at`.
pub fn keep(places: &mut [usize], m: u32, at: usize, k: u32) -> u32
    requires { Counted m }
    ensures { Stored places.old m at k places.new result }
{
    if k != 27 {
        return m;
    }
    names::set_place(places, wide(m), at);
    m + 1
}
