// The string literals of a source: their lengths into program words and their bytes into literal bytes.
#![tactic(auto)]

ghost use Rattle.std.specs.Prelude.{◌≡◌};
ghost use Rattle.sweep.specs.Decides.{Short};
ghost use Rattle.strings.specs.Places.{Placed};
ghost use Rattle.emission.specs.Emit.{write_literal_bytes};
ghost use Rattle.emit_literals.specs.Literals.{Written, AllWritten};

use token::TokenRead;
use token_cache::Tokens;
use words::wide;

// The bytes of literal k.
fn write_bytes(l: &mut [u8], k: u32, w: &[u8])
    requires { Short w.now }
    ensures { l.new ≡ write_literal_bytes w.now k 0 l.old }
{
    for i in 0..w.len() {
        words::set_word(l, 64 * wide(k) + i, w[i]);
    }
}

// The string at a position as literal k.
fn write_literal(tokens: &Tokens, at: usize, k: u32, p: &mut [u32], l: &mut [u8])
    requires { Short tokens.now.source.now }
    ensures { Written tokens.now.source.now at k p.old l.old p.new l.new }
{
    let TokenRead::Token(_j, a, q, _w) = tokens.token_at(at) else {
        return;
    };
    let w = token::string_bytes(tokens.source, a, q);
    table_updates::set_literal_length(p, k, w.len() as u32);
    write_bytes(l, k, w);
}

// The m literals of the source in order, each from its place.
pub fn write_literals(tokens: &Tokens, places: &[usize], m: u32, p: &mut [u32], l: &mut [u8])
    requires short { Short tokens.now.source.now }
    requires placed { Placed tokens.now.source.now places.now m }
    ensures { AllWritten tokens.now.source.now p.old l.old p.new l.new }
{
    for k in 0..m {
        let at = names::place(places, wide(k));
        write_literal(tokens, at, k, p, l);
    }
}
