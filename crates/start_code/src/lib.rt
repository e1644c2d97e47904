// The number of the code in Main.start, read from program words.
#![tactic(auto)]

ghost use Rattle.std.specs.Prelude.{◌≡◌};
ghost use Rattle.start_code.specs.StartCode.{find_slot, frame_slots, code_number, start_code};

use tables::ExpressionEntry;

// The place of the first slot with a name, among the 16 from a place on; 0 where there is none.
fn find_slot(p: &[u32], name: u32, from: u32) -> u32
    ensures { result ≡ find_slot p.now name 16 from }
{
    let mut z = from;
    for i in 0..16u32 {
        if z == 0 {
            return 0;
        }
        if name == tables::slot_name(p, z - 1) {
            return z;
        }
        z = tables::slot_after(p, z - 1);
    }
    0
}

// The place of the first slot of the frame in the slot at a place.
fn frame_slots(p: &[u32], z: u32) -> u32
    ensures { result ≡ frame_slots p.now z }
{
    if z == 0 {
        return 0;
    }
    let e = tables::expression_at(p, z - 1);
    let ExpressionEntry::Frame(d) = e else {
        return 0;
    };
    tables::link(1024, z - 1, d)
}

// The number of the code in the slot at a place.
fn code_number(p: &[u32], z: u32) -> u32
    ensures { result ≡ code_number p.now z }
{
    if z == 0 {
        return 0;
    }
    let e = tables::expression_at(p, z - 1);
    let ExpressionEntry::Code(k) = e else {
        return 0;
    };
    k
}

// The code in slot `start` of the frame in slot `main` of the program frame.
pub fn start_code(p: &[u32], main: u32, start: u32) -> u32
    ensures { result ≡ start_code p.now main start }
{
    let z = tables::program_slots(p);
    let a = find_slot(p, main, z);
    let b = frame_slots(p, a);
    let c = find_slot(p, start, b);
    code_number(p, c)
}
