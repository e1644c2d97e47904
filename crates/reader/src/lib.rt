// The token reader: a struct that holds the lent source and a position, which moves on behind each token. Callers use `token_from`: its parameters are plain, and
// it gives the position back.
#![tactic(auto)]

ghost use Rattle.std.specs.Prelude.{◌≡◌};
ghost use Rattle.framed.specs.Bytes.{class};
ghost use Rattle.source.specs.Classified.{Classified};
ghost use Rattle.token.specs.Reading.{TokenAt};
ghost use Rattle.reader.specs.Position.{position_after, next_token, ReadFrom};

use token::TokenRead;

#[derive(Clone, Copy)]
pub struct Reader<'a> {
    pub src: &'a [u8],
    pub at: usize,
}

// What was read at a position, and the position behind it.
#[derive(Clone, Copy)]
pub struct NextToken {
    pub token: TokenRead,
    pub at: usize,
}

// The position behind what was read at a position: a token's end; the same position where no token was read.
fn position_after(k: TokenRead, at: usize) -> usize
    ensures { result ≡ position_after k at }
{
    match k {
        TokenRead::End => at,
        TokenRead::NoToken => at,
        TokenRead::Token(_k, _begin, end, _w) => end,
    }
}

impl<'a> Reader<'a> {
    // A reader of a source at a position.
    pub fn new(src: &'a [u8], at: usize) -> Reader<'a>
        ensures { (result.src ≡ src.entry) × (result.at ≡ at) }
    {
        Reader { src, at }
    }

    // The token at the reader's position, by the table of classes; the reader moves on behind it.
    fn next(&mut self, t: &[u8; 256]) -> TokenRead
        requires { Classified t.now }
        ensures read { TokenAt class self.old.src.now self.old.at result }
        ensures kept { self.new.src ≡ self.old.src }
        ensures moved { self.new.at ≡ position_after result self.old.at }
    {
        let token = token::token_in(t, self.src, self.at);
        self.at = position_after(token, self.at);
        token
    }
}

// What was read and a position, as one. The token is put together anew of its parts: copied whole it is slower, since its last word is then read with bytes that
// were not stored with it.
fn with_position(k: TokenRead, at: usize) -> NextToken
    ensures { result ≡ next_token k at }
{
    match k {
        TokenRead::End => NextToken {
            token: TokenRead::End,
            at: at,
        },
        TokenRead::NoToken => NextToken {
            token: TokenRead::NoToken,
            at: at,
        },
        TokenRead::Token(kind, begin, end, word) => NextToken {
            token: TokenRead::Token(kind, begin, end, word),
            at: at,
        },
    }
}

// The token at a position of a source and the position behind it, by a reader that moves on, and the table of classes.
pub fn token_from(t: &[u8; 256], s: &[u8], at: usize) -> NextToken
    requires { Classified t.now }
    ensures { ReadFrom s.now at result }
{
    let mut r = Reader::new(s, at);
    let token = r.next(t);
    with_position(token, r.at)
}
