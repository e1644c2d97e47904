// What the functions that emit a tree share: where emission stands, where a part is written, and steps over tokens.
#![tactic(auto)]

ghost use Rattle.std.specs.Prelude.{◌≡◌};
ghost use Rattle.emit_steps.specs.Steps.{go_to, take_expression, take_instruction, take_string, take_code, inner_slot, inner_code};
ghost use Rattle.emit_steps.specs.Steps.{Pass, PassTwo, PassFrame};

use token::TokenRead;
use token_cache::Tokens;
use words::wide;

// Where emission stands: the position, and the numbers of the next expression, instruction, path name, string literal and code.
#[derive(Clone, Copy)]
pub struct Next {
    pub at: usize,
    pub expressions: u32,
    pub instructions: u32,
    pub paths: u32,
    pub strings: u32,
    pub codes: u32,
}

// A number is taken as far as a word goes.
impl Next {
    // The position is another one.
    pub fn go_to(self, at: usize) -> Next
        ensures { result ≡ go_to self at }
    {
        Next { at, ..self }
    }

    // The next number is taken, and the position is another one.
    #[tactic(auto, unfolding(crate::specs::Steps::one_more))]
    pub fn one_expression(self, at: usize) -> Next
        ensures { result ≡ take_expression self at }
    {
        Next {
            at,
            expressions: self.expressions.saturating_add(1),
            ..self
        }
    }

    #[tactic(auto, unfolding(crate::specs::Steps::one_more))]
    pub fn one_instruction(self) -> Next
        ensures { result ≡ take_instruction self }
    {
        Next {
            instructions: self.instructions.saturating_add(1),
            ..self
        }
    }

    #[tactic(auto, unfolding(crate::specs::Steps::one_more))]
    pub fn one_string(self, at: usize) -> Next
        ensures { result ≡ take_string self at }
    {
        Next {
            at,
            strings: self.strings.saturating_add(1),
            ..self
        }
    }

    #[tactic(auto, unfolding(crate::specs::Steps::one_more))]
    pub fn one_code(self, at: usize) -> Next
        ensures { result ≡ take_code self at }
    {
        Next {
            at,
            codes: self.codes.saturating_add(1),
            ..self
        }
    }
}

// Where a part is written: in code or outside, and the names of the frame that holds it, from the program frame down.
#[derive(Clone, Copy)]
pub struct Place {
    pub in_code: bool,
    pub depth: u32,
    pub names: [u32; 16],
}

impl Place {
    // The place of what is written in a frame that stands in slot n. A place has room for 16 names.
    pub fn within_slot(self, n: u32) -> Place
        ensures { result ≡ inner_slot self n }
    {
        if self.in_code {
            return self;
        }
        if 16 <= self.depth {
            return self;
        }
        let mut names = self.names;
        names[wide(self.depth)] = n;
        Place {
            in_code: false,
            depth: self.depth + 1,
            names,
        }
    }

    // The place of what is written in a code.
    pub fn within_code(self) -> Place
        ensures { result ≡ inner_code self }
    {
        Place {
            in_code: true,
            ..self
        }
    }
}

// ---- Tokens

// The position after a token of kind k; the same position where there is none.
pub fn pass(tokens: &Tokens, at: usize, k: u32) -> usize
    ensures { Pass tokens.now.source.now at k result }
{
    let TokenRead::Token(j, _a, p, _w) = tokens.token_at(at) else {
        return at;
    };
    if j == k {
        return p;
    }
    at
}

// The position after a token of kind j and one of kind k; the same position where they are not there.
pub fn pass_two(tokens: &Tokens, at: usize, j: u32, k: u32) -> usize
    ensures { PassTwo tokens.now.source.now at j k result }
{
    let p = pass(tokens, at, j);
    if p <= at {
        return at;
    }
    let q = pass(tokens, p, k);
    if q <= p {
        return at;
    }
    q
}

// The position after `frame` `:` `[`; the same position where they are not there.
pub fn pass_frame(tokens: &Tokens, at: usize) -> usize
    ensures { PassFrame tokens.now.source.now at result }
{
    let p = pass_two(tokens, at, 0, 5);
    if p <= at {
        return at;
    }
    let q = pass(tokens, p, 12);
    if q <= p {
        return at;
    }
    q
}
