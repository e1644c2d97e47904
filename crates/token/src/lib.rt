// Tokens of a source: the token at a position, and its bytes.
#![tactic(auto)]

ghost use Rattle.std.specs.Prelude.{◌≡◌, ◌+◌, ◌-◌};
ghost use Rattle.framed.specs.Bytes.{class};
ghost use Rattle.framed.specs.Tokens.{read};
ghost use Rattle.source.specs.Positions.{rest, part, At};
ghost use Rattle.source.specs.Classified.{Classified};
ghost use Rattle.token.specs.Reading.{TokenAt};
ghost use Rattle.token.specs.Beginning.{CanRead, CanRun, Begins, name_read, natural_read, negative_read, string_read, mark_read, mark_kind, TwoOk, two_read};

// What stands at a position: nothing more, bytes that form no token, or a token with its kind, where it begins and ends, and the word
// of an integer, else 0.
#[derive(Clone, Copy)]
pub enum TokenRead {
    End,
    NoToken,
    Token(u32, usize, usize, u32),
}

// A name or a reserved word that begins here.
fn name_at(t: &[u8; 256], s: &[u8], at: usize) -> TokenRead
    requires { CanRun t.now s.now 2 at }
    ensures { Begins (name_read class s.now at) s.now at result }
{
    let p = lexeme::run_end(t, s, at, 2);
    if p - at <= 16 {
        let w = &s[at..p];
        let k = lexeme::kind_of_word(w);
        return TokenRead::Token(k, at, p, 0);
    }
    TokenRead::NoToken
}

// An integer without a sign.
fn natural_at(t: &[u8; 256], s: &[u8], at: usize) -> TokenRead
    requires { CanRun t.now s.now 1 at }
    ensures { Begins (natural_read class s.now at) s.now at result }
{
    let p = lexeme::run_end(t, s, at, 1);
    let digits = &s[at..p];
    let n = lexeme::number_of(digits);
    if n <= 2147483647 {
        return TokenRead::Token(26, at, p, n as u32);
    }
    TokenRead::NoToken
}

// An integer whose sign is here and whose digits follow.
fn negative_at(t: &[u8; 256], s: &[u8], at: usize) -> TokenRead
    requires { CanRun t.now s.now 1 (at + 1) }
    ensures { Begins (negative_read class s.now at) s.now at result }
{
    let i = at + 1;
    let p = lexeme::run_end(t, s, i, 1);
    let digits = &s[i..p];
    let n = lexeme::number_of(digits);
    if n == 0 {
        return TokenRead::Token(26, at, p, 0);
    }
    if n <= 2147483648 {
        let w = 4294967296 - n;
        return TokenRead::Token(26, at, p, w as u32);
    }
    TokenRead::NoToken
}

// A string whose first quote is here.
fn string_at(t: &[u8; 256], s: &[u8], at: usize) -> TokenRead
    requires { CanRead t.now s.now at }
    ensures { Begins (string_read class s.now at) s.now at result }
{
    let i = at + 1;
    let p = lexeme::run_end(t, s, i, 0);
    let q = source::byte_at(s, p);
    if q != 34 {
        return TokenRead::NoToken;
    }
    if p - i <= 64 {
        return TokenRead::Token(27, at, p + 1, 0);
    }
    TokenRead::NoToken
}

// The kind of a mark of one byte; 29 where it is none.
#[tactic(auto, unfolding(crate::specs::Beginning::mark_kind))]
fn kind_of_mark(b: u8) -> u32
    ensures { result ≡ mark_kind b }
{
    match b {
        46 => 7,
        94 => 8,
        33 => 9,
        43 => 16,
        45 => 17,
        42 => 18,
        47 => 19,
        60 => 20,
        35 => 21,
        59 => 10,
        44 => 11,
        91 => 12,
        93 => 13,
        123 => 14,
        125 => 15,
        _ => 29,
    }
}

// A mark of two bytes, of kind k, whose second byte has to be `second`.
fn two_at(s: &[u8], at: usize, second: u8, k: u32) -> TokenRead
    requires { TwoOk s.now at second k }
    ensures { Begins (two_read s.now at second k) s.now at result }
{
    let follows = source::byte_at(s, at + 1);
    if follows != second {
        return TokenRead::NoToken;
    }
    TokenRead::Token(k, at, at + 2, 0)
}

// A mark that begins here.
fn mark_at(s: &[u8], at: usize) -> TokenRead
    requires { At s.now at }
    ensures { Begins (mark_read s.now at) s.now at result }
{
    let b = source::byte_at(s, at);
    if b == 58 {
        let d = source::byte_at(s, at + 1);
        if d == 61 {
            return TokenRead::Token(6, at, at + 2, 0);
        }
        return TokenRead::Token(5, at, at + 1, 0);
    }
    if b == 61 {
        return two_at(s, at, 61, 22);
    }
    if b == 38 {
        return two_at(s, at, 38, 23);
    }
    if b == 124 {
        return two_at(s, at, 124, 24);
    }
    let k = kind_of_mark(b);
    if 28 < k {
        return TokenRead::NoToken;
    }
    TokenRead::Token(k, at, at + 1, 0)
}

// The token that begins here.
fn read_at(t: &[u8; 256], s: &[u8], at: usize) -> TokenRead
    requires { CanRead t.now s.now at }
    ensures { Begins (read class (rest s.now at)) s.now at result }
{
    let b = source::byte_at(s, at);
    let k = source::class_in(t, b);
    if k == 2 {
        return name_at(t, s, at);
    }
    if k == 3 {
        return natural_at(t, s, at);
    }
    if b == 34 {
        return string_at(t, s, at);
    }
    if b == 45 {
        let d = source::byte_at(s, at + 1);
        let j = source::class_in(t, d);
        if j == 3 {
            return negative_at(t, s, at);
        }
    }
    mark_at(s, at)
}

// The token at a position, after spaces and comments, by a table of classes that the caller made: for code that reads many tokens, inlined in its loop.
#[inline(always)]
pub fn token_in(t: &[u8; 256], s: &[u8], at: usize) -> TokenRead
    requires { Classified t.now }
    ensures { TokenAt class s.now at result }
{
    let i = spaces::skip(t, s, at);
    if s.len() <= i {
        return TokenRead::End;
    }
    read_at(t, s, i)
}

// The token at a position, after spaces and comments.
pub fn token_at(s: &[u8], at: usize) -> TokenRead
    ensures { TokenAt class s.now at result }
{
    let t = source::classes();
    token_in(&t, s, at)
}

// The bytes of a token that begins and ends there, as a part of the source.
pub fn token_bytes<'a>(s: &'a [u8], begin: usize, end: usize) -> &'a [u8]
    ensures { result.now ≡ part s.now begin end }
{
    if end < begin {
        return &s[0..0];
    }
    if s.len() < begin {
        return &s[0..0];
    }
    if s.len() < end {
        return &s[begin..];
    }
    &s[begin..end]
}

// The bytes between the two quotes of a string that begins and ends there, as a part of the source.
pub fn string_bytes<'a>(s: &'a [u8], begin: usize, end: usize) -> &'a [u8]
    ensures { result.now ≡ part s.now (begin + 1) (end - 1) }
{
    if end <= begin {
        return &s[0..0];
    }
    token_bytes(s, begin + 1, end - 1)
}
