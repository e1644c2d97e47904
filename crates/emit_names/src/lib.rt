// The names kept of a source: the number of each, and the name table written into program words.
#![tactic(auto)]

ghost use Rattle.std.specs.Prelude.{◌≡◌, length};
ghost use Rattle.framed.specs.Symbols.{number_in};
ghost use Rattle.source.specs.Positions.{part};
ghost use Rattle.names.specs.Kept.{table_of};
ghost use Rattle.sweep.specs.Decides.{Short};
ghost use Rattle.table_updates.specs.Updates.{set_name_length};
ghost use Rattle.emission.specs.Emit.{write_name_bytes, write_names};
ghost use Rattle.emit_names.specs.Table.{Ready, Ready-prop, NameAt, write_kept};

use names::table::NameTable;
use token_cache::Tokens;
use words::wide;

// A source whose tokens can be read, and the names kept of it.
#[derive(Clone, Copy)]
pub struct Emission<'a> {
    pub tokens: Tokens<'a>,
    pub names: NameTable<'a>,
    pub ghost ready: { Ready tokens.cache.now tokens.source.now names.begins.now names.ends.now names.count } by { Ready-prop tokens.cache.now tokens.source.now names.begins.now names.ends.now names.count },
}

impl<'a> Emission<'a> {
    ghost use Rattle.emit_names.specs.Lent.{table_in};

    // The number of the part from a up to p among the names kept; their count where it is none of them. Where the hint leads to the name itself, no other is looked at.
    fn number_at(&self, a: usize, p: usize) -> u32
        ensures { result ≡ number_in (table_in self.now) (part self.now.tokens.source.now a p) }
    {
        let s = self.tokens.source;
        let names = self.names;
        let g = names::hint(s, names.hints, a, p);
        names::number_from(
            s,
            names.begins,
            names.ends,
            names.count,
            g.saturating_sub(1),
            a,
            p,
        )
    }

    // The same of the name that stands at a position: where its entry in the cache has a note, its bytes are not looked at.
    pub fn number_noted(&self, at: usize, a: usize, p: usize) -> u32
        requires { NameAt self.now.tokens.source.now at a p }
        ensures { result ≡ number_in (table_in self.now) (part self.now.tokens.source.now a p) }
    {
        let g = self.tokens.note_at(at);
        if g != 0 {
            return g - 1;
        }
        self.number_at(a, p)
    }
}

// The bytes of name k.
fn write_bytes(p: &mut [u32], k: u32, w: &[u8])
    requires { Short w.now }
    ensures { p.new ≡ write_name_bytes w.now k 0 p.old }
{
    for i in 0..w.len() {
        words::set_word(p, 65 + 17 * wide(k) + i, w[i] as u32);
    }
}

// Name k: its bytes and its length.
fn write_name(p: &mut [u32], k: u32, w: &[u8])
    requires { Short w.now }
    ensures { p.new ≡ set_name_length (write_name_bytes w.now k 0 p.old) k (length w.now) }
{
    write_bytes(p, k, w);
    table_updates::set_name_length(p, k, w.len() as u32);
}

// Name k of the names kept.
fn write_kept(s: &[u8], begins: &[usize], ends: &[usize], k: u32, p: &mut [u32])
    requires { Short s.now }
    ensures { p.new ≡ write_kept s.now begins.now ends.now k p.old }
{
    let a = names::place(begins, wide(k));
    let q = names::place(ends, wide(k));
    let w = token::token_bytes(s, a, q);
    write_name(p, k, w);
}

// The names kept.
pub fn write_names(s: &[u8], begins: &[usize], ends: &[usize], n: u32, p: &mut [u32])
    requires { Short s.now }
    ensures { p.new ≡ write_names (table_of s.now begins.now ends.now n) 0 p.old }
{
    for k in 0..n {
        write_kept(s, begins, ends, k, p);
    }
}
