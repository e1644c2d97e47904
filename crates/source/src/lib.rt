// The bytes of a source: the class of each, and the byte at a position.
#![tactic(auto)]

ghost use Rattle.std.specs.Prelude.{◌≡◌};
ghost use Rattle.framed.specs.Bytes.{class};
ghost use Rattle.source.specs.Positions.{byte};
ghost use Rattle.source.specs.Classified.{Classified};

// The class of each byte: 1 space, 2 letter, 3 digit, 4 mark, 0 the rest.
const CLASS: [u8; 256] = [
    0, 0, 0, 0, 0, 0, 0, 0, 0, 1, // tab
    1, // line feed
    0, 0, 1, // carriage return
    0, 0, 0, 0, 0, 0, 0, 0, 0, 0, 0, 0, 0, 0, 0, 0, 0, 0, 1, // space
    4, // !
    4, // "
    4, // #
    0, // $
    0, // %
    4, // &
    0, // '
    0, // (
    0, // )
    4, // *
    4, // +
    4, // ,
    4, // -
    4, // .
    4, // /
    3, // 0
    3, // 1
    3, // 2
    3, // 3
    3, // 4
    3, // 5
    3, // 6
    3, // 7
    3, // 8
    3, // 9
    4, // :
    4, // ;
    4, // <
    4, // =
    0, // >
    0, // ?
    0, // @
    2, // A
    2, // B
    2, // C
    2, // D
    2, // E
    2, // F
    2, // G
    2, // H
    2, // I
    2, // J
    2, // K
    2, // L
    2, // M
    2, // N
    2, // O
    2, // P
    2, // Q
    2, // R
    2, // S
    2, // T
    2, // U
    2, // V
    2, // W
    2, // X
    2, // Y
    2, // Z
    4, // [
    0, // \
    4, // ]
    4, // ^
    2, // _
    0, // `
    2, // a
    2, // b
    2, // c
    2, // d
    2, // e
    2, // f
    2, // g
    2, // h
    2, // i
    2, // j
    2, // k
    2, // l
    2, // m
    2, // n
    2, // o
    2, // p
    2, // q
    2, // r
    2, // s
    2, // t
    2, // u
    2, // v
    2, // w
    2, // x
    2, // y
    2, // z
    4, // {
    4, // |
    4, // }
    0, // ~
    0, 0, 0, 0, 0, 0, 0, 0, 0, 0, 0, 0, 0, 0, 0, 0, 0, 0, 0, 0, 0, 0, 0, 0, 0, 0, 0, 0, 0, 0, 0, 0,
    0, 0, 0, 0, 0, 0, 0, 0, 0, 0, 0, 0, 0, 0, 0, 0, 0, 0, 0, 0, 0, 0, 0, 0, 0, 0, 0, 0, 0, 0, 0, 0,
    0, 0, 0, 0, 0, 0, 0, 0, 0, 0, 0, 0, 0, 0, 0, 0, 0, 0, 0, 0, 0, 0, 0, 0, 0, 0, 0, 0, 0, 0, 0, 0,
    0, 0, 0, 0, 0, 0, 0, 0, 0, 0, 0, 0, 0, 0, 0, 0, 0, 0, 0, 0, 0, 0, 0, 0, 0, 0, 0, 0, 0, 0, 0, 0,
    0,
];

// The table, for code that reads many bytes. All reading of tokens takes the classes from here.
pub fn classes() -> [u8; 256]
    ensures { Classified result }
{
    CLASS
}

// The class of a byte, from the table.
pub fn class_in(t: &[u8; 256], b: u8) -> u8
    requires { Classified t.now }
    ensures { result ≡ class b }
{
    t[b as usize]
}

// The byte at a position, and 0 past the end.
#[tactic(auto, unfolding(crate::specs::Positions::byte))]
pub fn byte_at(s: &[u8], at: usize) -> u8
    ensures { result ≡ byte s.now at }
{
    s.get(at).copied().unwrap_or(0)
}
