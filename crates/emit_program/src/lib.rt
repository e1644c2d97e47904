// Program words and literal bytes of a source that load accepts.
#![tactic(auto)]

ghost use Rattle.std.specs.Prelude.{◌≡◌};
ghost use Rattle.names.specs.Kept.{Kept};
ghost use Rattle.strings.specs.Places.{Placed};
ghost use Rattle.emit_names.specs.Lent.{table_in};
ghost use Rattle.sweep.specs.Decides.{Short};
ghost use Rattle.emit_steps.specs.Steps.{numbers};
ghost use Rattle.emit_program.specs.Written.{write_limits, write_counts, write_start, TreeWritten, HeaderWritten, TablesWritten, CanEmit, Emitted};

use emit_names::Emission;
use emit_steps::Next;

// The limits, and how many there are of names and literals.
fn write_limits(p: &mut [u32], f: u32, t: u32, names: u32, literals: u32)
    ensures { p.new ≡ write_limits p.old f t names literals }
{
    table_updates::set_frame_limit(p, f);
    table_updates::set_text_limit(p, t);
    table_updates::set_names(p, names);
    table_updates::set_literals(p, literals);
}

// How many there are of the rest, and the first slot of the program frame.
fn write_counts(p: &mut [u32], n: Next, z: u32)
    ensures { p.new ≡ write_counts p.old (numbers n) z }
{
    table_updates::set_expressions(p, n.expressions);
    table_updates::set_instructions(p, n.instructions);
    table_updates::set_codes(p, n.codes);
    table_updates::set_path_names(p, n.paths);
    table_updates::set_program_slots(p, z);
}

// The code of Main.start.
fn write_start(e: &Emission, p: &mut [u32])
    ensures { p.new ≡ write_start (table_in e.now) p.old }
{
    let s = e.tokens.source;
    let names = e.names;
    let main = names::number_of(s, names.begins, names.ends, names.count, b"Main");
    let start = names::number_of(s, names.begins, names.ends, names.count, b"start");
    let k = start_code::start_code(p, main, start);
    table_updates::set_start(p, k);
}

// The header, where the tree, the names and the literals are written.
fn write_header(e: &Emission, literals: u32, n: Next, f: u32, t: u32, p: &mut [u32])
    ensures { HeaderWritten e.now.tokens.source.now e.now.names.begins.now e.now.names.ends.now e.now.names.count literals n f t p.old p.new }
{
    write_limits(p, f, t, e.names.count, literals);
    let z = emit_tree::first_slot_place(&e.tokens);
    write_counts(p, n, z);
    write_start(e, p);
}

// The tree and the names: the numbers after the tree.
fn write_tree(e: &Emission, p: &mut [u32]) -> Next
    requires { Short e.now.tokens.source.now }
    ensures { TreeWritten e.now.tokens.source.now e.now.names.begins.now e.now.names.ends.now e.now.names.count p.old p.new result }
{
    let n = emit_tree::emit_tree(e, p);
    emit_names::write_names(
        e.tokens.source,
        e.names.begins,
        e.names.ends,
        e.names.count,
        p,
    );
    n
}

// Both memories, where the names and the places of the strings are kept.
fn write_tables(
    e: &Emission,
    places: &[usize],
    strings: u32,
    f: u32,
    t: u32,
    p: &mut [u32],
    l: &mut [u8],
)
    requires short { Short e.now.tokens.source.now }
    requires placed { Placed e.now.tokens.source.now places.now strings }
    ensures { TablesWritten e.now.tokens.source.now e.now.names.begins.now e.now.names.ends.now e.now.names.count f t p.old l.old p.new l.new }
{
    let n = write_tree(e, p);
    emit_literals::write_literals(&e.tokens, places, strings, p, l);
    write_header(e, strings, n, f, t, p);
}

// Both memories become those of the program of the source, with its limits; its names and the places of its strings are kept.
pub fn emit(
    e: &Emission,
    places: &[usize],
    strings: u32,
    f: u32,
    t: u32,
    p: &mut [u32],
    l: &mut [u8],
)
    requires kept { Kept e.now.tokens.source.now e.now.names.begins.now e.now.names.ends.now e.now.names.count }
    requires placed { Placed e.now.tokens.source.now places.now strings }
    requires can { CanEmit e.now.tokens.source.now p.old l.old }
    ensures { Emitted e.now.tokens.source.now f t p.new l.new }
{
    clearing::clear_words(p);
    clearing::clear_bytes(l);
    write_tables(e, places, strings, f, t, p, l);
}
