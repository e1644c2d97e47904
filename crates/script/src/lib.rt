// The script of `replay`, read token by token: which call comes, and its arguments.
#![tactic(auto)]

ghost use Rattle.std.specs.Prelude.{◌≡◌};
ghost use Rattle.script.specs.Script.{is_open, called, after_name, string_for, after_string, space_for, write_space_for, integer_for, after_integer, after_token};

// The argument of a call that comes next, with those before it. A string is given by where it begins and ends.
#[derive(Clone, Copy)]
pub enum Argument {
    LoadFile,
    LoadFrames(usize, usize),
    LoadTexts(usize, usize, u32),
    RunFuel,
    RunSpace(u32),
    LookPath,
    WriteSpace,
}

// A call with its arguments: a file, F and T; fuel and space; none; a path; space.
#[derive(Clone, Copy)]
pub enum Call {
    Load(usize, usize, u32, u32),
    Run(u32, u32),
    Collect,
    Look(usize, usize),
    Write(u32),
}

// What a script has come to: the name of a call comes next, or an argument; a call is complete; or a token, from where it begins to where it
// ends, does not fit.
#[derive(Clone, Copy)]
pub enum Script {
    Name,
    Open(Argument),
    Complete(Call),
    Unfit(usize, usize),
}

// Whether a call has begun whose arguments are not all there.
pub fn is_open(script: Script) -> bool
    ensures { result ≡ is_open script }
{
    match script {
        Script::Name => false,
        Script::Open(_argument) => true,
        Script::Complete(_call) => false,
        Script::Unfit(_begin, _end) => false,
    }
}

// The call that a name begins.
fn called(name: &[u8], begin: usize, end: usize) -> Script
    ensures { result ≡ called name.now begin end }
{
    if lexeme::is_word(name, b"load") {
        return Script::Open(Argument::LoadFile);
    }
    if lexeme::is_word(name, b"run") {
        return Script::Open(Argument::RunFuel);
    }
    if lexeme::is_word(name, b"collect") {
        return Script::Complete(Call::Collect);
    }
    if lexeme::is_word(name, b"look") {
        return Script::Open(Argument::LookPath);
    }
    if lexeme::is_word(name, b"write") {
        return Script::Open(Argument::WriteSpace);
    }
    Script::Unfit(begin, end)
}

fn after_name(s: &[u8], script: Script, begin: usize, end: usize) -> Script
    ensures { result ≡ after_name s.now script begin end }
{
    if is_open(script) {
        return Script::Unfit(begin, end);
    }
    called(token::token_bytes(s, begin, end), begin, end)
}

// A string for an argument.
fn string_for(argument: Argument, begin: usize, end: usize) -> Script
    ensures { result ≡ string_for argument begin end }
{
    match argument {
        Argument::LoadFile => Script::Open(Argument::LoadFrames(begin, end)),
        Argument::LoadFrames(_b, _e) => Script::Unfit(begin, end),
        Argument::LoadTexts(_b, _e, _frames) => Script::Unfit(begin, end),
        Argument::RunFuel => Script::Unfit(begin, end),
        Argument::RunSpace(_fuel) => Script::Unfit(begin, end),
        Argument::LookPath => Script::Complete(Call::Look(begin, end)),
        Argument::WriteSpace => Script::Unfit(begin, end),
    }
}

fn after_string(script: Script, begin: usize, end: usize) -> Script
    ensures { result ≡ after_string script begin end }
{
    match script {
        Script::Name => Script::Unfit(begin, end),
        Script::Open(argument) => string_for(argument, begin, end),
        Script::Complete(_call) => Script::Unfit(begin, end),
        Script::Unfit(_b, _e) => Script::Unfit(begin, end),
    }
}

// A run's space is at most 4,096.
fn space_for(fuel: u32, begin: usize, end: usize, n: u32) -> Script
    ensures { result ≡ space_for fuel begin end n }
{
    if n <= 4096 {
        return Script::Complete(Call::Run(fuel, n));
    }
    Script::Unfit(begin, end)
}

// A write's space is at most 32,768.
fn write_space_for(begin: usize, end: usize, n: u32) -> Script
    ensures { result ≡ write_space_for begin end n }
{
    if n <= 32768 {
        return Script::Complete(Call::Write(n));
    }
    Script::Unfit(begin, end)
}

// An integer for an argument, as its word.
fn integer_for(argument: Argument, begin: usize, end: usize, n: u32) -> Script
    ensures { result ≡ integer_for argument begin end n }
{
    match argument {
        Argument::LoadFile => Script::Unfit(begin, end),
        Argument::LoadFrames(b, e) => Script::Open(Argument::LoadTexts(b, e, n)),
        Argument::LoadTexts(b, e, frames) => Script::Complete(Call::Load(b, e, frames, n)),
        Argument::RunFuel => Script::Open(Argument::RunSpace(n)),
        Argument::RunSpace(fuel) => space_for(fuel, begin, end, n),
        Argument::LookPath => Script::Unfit(begin, end),
        Argument::WriteSpace => write_space_for(begin, end, n),
    }
}

fn after_integer(script: Script, begin: usize, end: usize, n: u32) -> Script
    ensures { result ≡ after_integer script begin end n }
{
    match script {
        Script::Name => Script::Unfit(begin, end),
        Script::Open(argument) => integer_for(argument, begin, end, n),
        Script::Complete(_call) => Script::Unfit(begin, end),
        Script::Unfit(_b, _e) => Script::Unfit(begin, end),
    }
}

// What the script comes to by one more token, of this kind (25 a name, 26 an integer, 27 a string) and word.
pub fn after_token(
    s: &[u8],
    script: Script,
    kind: u32,
    begin: usize,
    end: usize,
    word: u32,
) -> Script
    ensures { result ≡ after_token s.now script kind begin end word }
{
    match kind {
        25 => after_name(s, script, begin, end),
        26 => after_integer(script, begin, end, word),
        27 => after_string(script, begin, end),
        _ => Script::Unfit(begin, end),
    }
}
