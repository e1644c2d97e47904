// Builds the memories of a small program that has run to its end, as the file `made` says, sets one word or byte of them at a time to each
// of some values, and writes for each place of the file `places` which of these leave the memories well-formed: 1 yes, 0 no, - where the
// value is no byte. A line of `made` is a memory (0 program words, 1 heap words, 2 literal bytes, 3 text bytes), a place and a value.
#![tactic(auto)]

use std::io;

const VALUES: [u32; 22] = [
    0, 1, 2, 3, 4, 5, 6, 7, 16, 17, 31, 37, 38, 65, 66, 128, 129, 256, 257, 1024, 1025, 4294967295,
];

// A number, and the place after the byte behind it.
#[derive(Clone, Copy)]
struct Number {
    value: u32,
    next: usize,
}

fn number_at(s: &[u8], at: usize) -> Number {
    let mut n: u64 = 0;
    let mut i = at;
    while i < s.len() {
        let b = u64::from(s[i]);
        i += 1;
        if b < 48 {
            break;
        }
        n = (n % 4294967296) * 10 + (b - 48);
    }
    Number {
        value: (n % 4294967296) as u32,
        next: i,
    }
}

// One word or byte of one of the four memories.
fn put(
    p: &mut [u32],
    h: &mut [u32],
    l: &mut [u8],
    t: &mut [u8],
    memory: u32,
    place: u32,
    value: u32,
) {
    let k = words::wide(place);
    if memory == 0 {
        words::set_word(p, k, value);
        return;
    }
    if memory == 1 {
        words::set_word(h, k, value);
        return;
    }
    if memory == 2 {
        words::set_word(l, k, (value % 256) as u8);
        return;
    }
    words::set_word(t, k, (value % 256) as u8);
}

// The memories as made, where they were cleared.
fn make(made: &[u8], p: &mut [u32], h: &mut [u32], l: &mut [u8], t: &mut [u8]) {
    let mut at = 0;
    while at < made.len() {
        let memory = number_at(made, at);
        let place = number_at(made, memory.next);
        let value = number_at(made, place.next);
        put(p, h, l, t, memory.value, place.value, value.value);
        if value.next <= at {
            return;
        }
        at = value.next;
    }
}

// The memories as made, with one change, are well-formed.
fn well_formed_with(made: &[u8], memory: u32, place: u32, value: u32) -> bool {
    let mut p = [0u32; 16384];
    let mut h = [0u32; 16384];
    let mut l = [0u8; 8192];
    let mut t = [0u8; 16384];
    make(made, &mut p, &mut h, &mut l, &mut t);
    put(&mut p, &mut h, &mut l, &mut t, memory, place, value);
    wellformed::well_formed(&p, &h, &l, &t)
}

fn write_verdict(
    rt: &impl Print,
    made: &[u8],
    memory: u32,
    place: u32,
    value: u32,
) -> io::Result<()> {
    if 1 < memory {
        if 255 < value {
            return print_output::put(rt, b"-");
        }
    }
    if well_formed_with(made, memory, place, value) {
        return print_output::put(rt, b"1");
    }
    print_output::put(rt, b"0")
}

fn write_memory(rt: &impl Print, memory: u32) -> io::Result<()> {
    if memory == 0 {
        return print_output::put(rt, b"program ");
    }
    if memory == 1 {
        return print_output::put(rt, b"heap ");
    }
    if memory == 2 {
        return print_output::put(rt, b"literal ");
    }
    print_output::put(rt, b"text ")
}

fn write_place(rt: &impl Print, made: &[u8], memory: u32, place: u32) -> io::Result<()> {
    write_memory(rt, memory)?;
    print_output::put_number(rt, place)?;
    print_output::put(rt, b" ")?;
    for value in VALUES {
        write_verdict(rt, made, memory, place, value)?;
    }
    print_output::put(rt, b"\n")
}

fn write_places(rt: &impl Print, made: &[u8], places: &[u8]) -> io::Result<()> {
    let mut at = 0;
    while at < places.len() {
        let memory = number_at(places, at);
        let place = number_at(places, memory.next);
        write_place(rt, made, memory.value, place.value)?;
        if place.next <= at {
            return Ok(());
        }
        at = place.next;
    }
    Ok(())
}

fn main(rt: HostRuntime) -> io::Result<()> {
    let mut made = [0u8; 65536];
    let n = input::read_opened(&rt, b"made", &mut made).unwrap_or(0);
    let mut places = [0u8; 65536];
    let k = input::read_opened(&rt, b"places", &mut places).unwrap_or(0);
    print_output::put(&rt, b"as made ")?;
    write_verdict(&rt, &made[..n], 0, 16383, 0)?;
    print_output::put(&rt, b"\n")?;
    write_places(&rt, &made[..n], &places[..k])
}
