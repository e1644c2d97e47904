// The public call look and its companion. The four memories and the path text are only read.
#![tactic(auto)]

ghost use Rattle.std.specs.Prelude.{◌≡◌};
ghost use Rattle.look_part.specs.Part.{PartIs};
ghost use Rattle.look.specs.Look.{kind_answer, answer, look_call, LookMeans, look_part, LookTextMeans};

use framed::{LookAnswer, Value};
use look_path::Resolved;

fn kind_answer(h: &[u32], v: Value) -> LookAnswer
    ensures { result ≡ kind_answer h.now v }
{
    match v {
        Value::Int(n) => LookAnswer::Integer(n),
        Value::Text(_t) => LookAnswer::Text,
        Value::Code(_k) => LookAnswer::Code,
        Value::Frame(f) => LookAnswer::Frame(heap::maker(h, f)),
    }
}

fn answer(h: &[u32], x: Resolved) -> LookAnswer
    ensures { result ≡ answer h.now x }
{
    match x {
        Resolved::Found(v) => kind_answer(h, v),
        Resolved::Undefined => LookAnswer::Undefined,
        Resolved::NotPath => LookAnswer::NotPath,
    }
}

// The kind of what the path text leads to, with the number of an integer and the maker of a frame.
pub fn look(p: &[u32], h: &[u32], l: &[u8], t: &[u8], path: &[u8]) -> LookAnswer
    ensures exact { result ≡ look_call p.now h.now l.now t.now path.now }
    ensures meaning { LookMeans p.now h.now l.now t.now path.now result }
{
    if !wellformed::well_formed(p, h, l, t) {
        return LookAnswer::NotWellFormed;
    }
    answer(h, look_path::resolve(p, h, path))
}

// The companion: the bytes of a text, as a part of the literal bytes or of the text bytes; of another kind or a refusal an empty part.
pub fn look_text<'a>(p: &[u32], h: &[u32], l: &'a [u8], t: &'a [u8], path: &[u8]) -> &'a [u8]
    ensures exact { PartIs l.entry t.entry (look_part p.now h.now l.now t.now path.now) result }
    ensures meaning { LookTextMeans p.now h.now l.now t.now path.now result.now }
{
    if !wellformed::well_formed(p, h, l, t) {
        return look_part::empty_part(l);
    }
    let x = look_path::resolve(p, h, path);
    look_part::part_bytes(l, t, look_part::part_found(p, h, x))
}
