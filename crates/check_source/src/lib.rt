// Which of the numbers 1 to 12 refuses a source. Nothing lent is written but the cache of its tokens, its names and the places of its strings, kept for those who write the program.
#![tactic(auto)]

ghost use Rattle.std.specs.Prelude.{◌≡◌, length};
ghost use Rattle.framed.specs.Bytes.{class};
ghost use Rattle.framed.specs.Tokens.{tokens};
ghost use Rattle.framed.specs.Meaning.{source_refusal, refusal};
ghost use Rattle.framed.specs.Answers.{load_refused};
ghost use Rattle.sweep.specs.Decides.{Short, Decides};
ghost use Rattle.token_cache.specs.Cache.{Cached, Unnoted};
ghost use Rattle.names.specs.Kept.{Sized};
ghost use Rattle.slots.specs.Own.{bad_tree};
ghost use Rattle.limits.specs.Arguments.{lengths};
ghost use Rattle.check_source.specs.Numbers.{CleanSeen, MeaningOf, Means, KeptAt};

use framed::LoadRefusal;
use survey::Findings;
use token_cache::Tokens;

// Some frame has a name twice or more than 16 slots. Where none was seen to be so, they are not looked at again.
fn bad_frame(tokens: &Tokens, clean: bool) -> bool
    requires { CleanSeen tokens.now.source.now clean }
    ensures { Decides bad_tree tokens.now.source.now result }
{
    if clean {
        return false;
    }
    slots::bad_frame(tokens)
}

// Numbers 7 to 12, of a source of which v was found.
fn meaning_refusal(tokens: &Tokens, v: Findings, f: u32) -> Result<(), LoadRefusal>
    requires { MeaningOf tokens.now.source.now v }
    ensures { Means tokens.now.source.now f (load_refused result) }
{
    let s = tokens.source;
    let t = v.totals;
    if limits::outside_code(s, t) {
        return Err(LoadRefusal::OutsideCode);
    }
    if bad_frame(tokens, v.clean) {
        return Err(LoadRefusal::BadFrame);
    }
    if limits::above_limit(s, t, v.names) {
        return Err(LoadRefusal::CountLimit);
    }
    if limits::far_up(s, t) {
        return Err(LoadRefusal::AboveProgram);
    }
    if !start::has_start(tokens) {
        return Err(LoadRefusal::NoStart);
    }
    if limits::many_frames(s, t, f) {
        return Err(LoadRefusal::WrittenFrames);
    }
    Ok(())
}

// Numbers 4 to 12. The names and the places of strings are kept, with how many there are in `count` and `strings`.
fn source_refusal(
    c: &mut [u64; 16384],
    s: &[u8],
    begins: &mut [usize],
    ends: &mut [usize],
    hints: &mut [u8; 4096],
    places: &mut [usize],
    count: &mut u32,
    strings: &mut u32,
    f: u32,
) -> Result<(), LoadRefusal>
    requires short { Short s.now }
    requires cached { Cached c.old s.now }
    requires unnoted { Unnoted c.old }
    requires sized { Sized begins.old ends.old hints.old }
    requires placed { length places.old ≡ 129 }
    ensures number { load_refused result ≡ source_refusal (tokens class s.now) f }
    ensures cached { Cached c.new s.now }
    ensures kept { KeptAt (load_refused result) c.new s.now begins.new ends.new places.new count.new strings.new }
{
    let v = survey::survey(c, s, begins, ends, hints, places);
    *count = v.names;
    *strings = v.strings;
    v.refusal?;
    let tokens = Tokens {
        cache: &*c,
        source: s,
    };
    if !grammar::one_frame(&tokens) {
        return Err(LoadRefusal::NotOneFrame);
    }
    meaning_refusal(&tokens, v, f)
}

// What load answers to these lengths of the four memories, source, F and T. The names and the places of strings of a source that loads are kept, with how many there are in `count` and `strings`.
pub fn check(
    program: usize,
    heap: usize,
    literal: usize,
    text: usize,
    c: &mut [u64; 16384],
    s: &[u8],
    begins: &mut [usize],
    ends: &mut [usize],
    hints: &mut [u8; 4096],
    places: &mut [usize],
    count: &mut u32,
    strings: &mut u32,
    f: u32,
    t: u32,
) -> Result<(), LoadRefusal>
    requires cached { Cached c.old s.now }
    requires unnoted { Unnoted c.old }
    requires sized { Sized begins.old ends.old hints.old }
    requires placed { length places.old ≡ 129 }
    ensures number { load_refused result ≡ refusal (lengths program heap literal text) s.now f t }
    ensures cached { Cached c.new s.now }
    ensures kept { KeptAt (load_refused result) c.new s.now begins.new ends.new places.new count.new strings.new }
{
    limits::lengths_refusal(program, heap, literal, text)?;
    limits::limits_refusal(s.len(), f, t)?;
    source_refusal(c, s, begins, ends, hints, places, count, strings, f)
}
