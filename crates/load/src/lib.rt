// The public call load. It checks first and writes nothing lent where it refuses; else all four memories are cleared and written.
#![tactic(auto)]

ghost use Rattle.std.specs.Prelude.{◌≡◌};
ghost use Rattle.token_cache.specs.Cache.{Cached};
ghost use Rattle.check_source.specs.Numbers.{KeptAll};
ghost use Rattle.framed.specs.Answers.{load_number, load_refused};
ghost use Rattle.load.specs.Load.{memories, loading, load_call, LoadMeans, CanInstall, Installed};

use emit_names::Emission;
use framed::{LoadAnswer, LoadRefusal};
use names::table::NameTable;
use token_cache::Tokens;

// The memories of an accepted source, whose names and places of strings are kept: program words p, heap words h, literal bytes l, text bytes x.
fn install<'a>(
    c: &'a [u64; 16384],
    source: &'a [u8],
    begins: &'a [usize],
    ends: &'a [usize],
    hints: &'a [u8; 4096],
    count: u32,
    places: &[usize],
    strings: u32,
    f: u32,
    t: u32,
    p: &mut [u32],
    h: &mut [u32],
    l: &mut [u8],
    x: &mut [u8],
)
    requires cached { Cached c.now source.now }
    requires kept { KeptAll c.now source.now begins.now ends.now places.now count strings }
    requires can { CanInstall (memories p.old h.old l.old x.old) source.now f t }
    ensures { Installed source.now f t (memories p.new h.new l.new x.new) }
{
    let e = Emission {
        tokens: Tokens { cache: c, source },
        names: NameTable {
            begins,
            ends,
            hints,
            count,
        },
    };
    emit_program::emit(&e, places, strings, f, t, p, l);
    clearing::clear_words(h);
    clearing::clear_bytes(x);
    start_state::start(p, l, h, x);
}

// What load answers, by what the check found.
fn answer(checked: Result<(), LoadRefusal>) -> LoadAnswer
    ensures { load_number result ≡ load_refused checked }
{
    let Err(refusal) = checked else {
        return LoadAnswer::Loaded;
    };
    match refusal {
        LoadRefusal::MemoryLength => LoadAnswer::MemoryLength,
        LoadRefusal::LimitRange => LoadAnswer::LimitRange,
        LoadRefusal::SourceLength => LoadAnswer::SourceLength,
        LoadRefusal::NoToken => LoadAnswer::NoToken,
        LoadRefusal::Nesting => LoadAnswer::Nesting,
        LoadRefusal::NotOneFrame => LoadAnswer::NotOneFrame,
        LoadRefusal::OutsideCode => LoadAnswer::OutsideCode,
        LoadRefusal::BadFrame => LoadAnswer::BadFrame,
        LoadRefusal::CountLimit => LoadAnswer::CountLimit,
        LoadRefusal::AboveProgram => LoadAnswer::AboveProgram,
        LoadRefusal::NoStart => LoadAnswer::NoStart,
        LoadRefusal::WrittenFrames => LoadAnswer::WrittenFrames,
    }
}

pub fn load(
    source: &[u8],
    f: u32,
    t: u32,
    p: &mut [u32],
    h: &mut [u32],
    l: &mut [u8],
    x: &mut [u8],
) -> LoadAnswer
    ensures exact { load_call (memories p.old h.old l.old x.old) source.now f t ≡ loading result (memories p.new h.new l.new x.new) }
    ensures meaning { LoadMeans (memories p.old h.old l.old x.old) source.now f t result (memories p.new h.new l.new x.new) }
{
    let mut c = [0u64; 16384];
    let mut begins = [0usize; 129];
    let mut ends = [0usize; 129];
    let mut hints = [0u8; 4096];
    let mut places = [0usize; 129];
    let mut count = 0u32;
    let mut strings = 0u32;
    let checked = check_source::check(
        p.len(),
        h.len(),
        l.len(),
        x.len(),
        &mut c,
        source,
        &mut begins,
        &mut ends,
        &mut hints,
        &mut places,
        &mut count,
        &mut strings,
        f,
        t,
    );
    let answer = answer(checked);
    let LoadAnswer::Loaded = answer else {
        return answer;
    };
    install(
        &c, source, &begins, &ends, &hints, count, &places, strings, f, t, p, h, l, x,
    );
    LoadAnswer::Loaded
}
