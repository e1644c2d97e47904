// Heap words and text bytes, field by field (docs/LAYOUT.md). Every function is total: past the end a read gives 0 and a write does nothing.
#![tactic(auto)]

ghost use Rattle.std.specs.Prelude.{◌≡◌, ◌<◌, ℕ, length};
ghost use Rattle.heap.specs.Words.{value_of, tag_of, number_of, self_held, program_held, position, end_mark};
ghost use Rattle.heap.specs.Words.{frame_word, frame_used, slot_count_at, maker_at, slot_name_at, slot_tag_at, slot_number_at, slot_value_at};
ghost use Rattle.heap.specs.Words.{text_word, text_used, text_length, text_byte};
ghost use Rattle.heap.specs.Words.{set_self, set_program, set_position, set_end_mark, set_slot_value, add_slot, take_frame, free_frame};
ghost use Rattle.heap.specs.Words.{take_text, free_text};
ghost use Rattle.heap.specs.Held.{frames_in_use, texts_in_use};
ghost use Rattle.heap.specs.Count.{Counted};

use framed::{Text, Value};

// ---- A value as a tag and a number

pub fn value_of(tag: u32, number: u32) -> Value
    ensures { result ≡ value_of tag number }
{
    match tag {
        0 => Value::Int(ints::int_of(number)),
        1 => Value::Text(Text::Literal(number)),
        2 => Value::Text(Text::Made(number)),
        3 => Value::Code(number),
        _ => Value::Frame(number),
    }
}

pub fn tag_of(v: Value) -> u32
    ensures { result ≡ tag_of v }
{
    match v {
        Value::Int(_) => 0,
        Value::Text(Text::Literal(_)) => 1,
        Value::Text(Text::Made(_)) => 2,
        Value::Code(_) => 3,
        Value::Frame(_) => 4,
    }
}

pub fn number_of(v: Value) -> u32
    ensures { result ≡ number_of v }
{
    match v {
        Value::Int(n) => ints::word_of(n),
        Value::Text(Text::Literal(n) | Text::Made(n)) | Value::Code(n) | Value::Frame(n) => n,
    }
}

// ---- The header: self, program, position, end mark

#[tactic(auto, unfolding(crate::specs::Words::self_held))]
pub fn self_value(h: &[u32]) -> Value
    ensures { result ≡ self_held h.now }
{
    value_of(words::word(h, 0), words::word(h, 1))
}

#[tactic(auto, unfolding(crate::specs::Words::program_held))]
pub fn program_value(h: &[u32]) -> Value
    ensures { result ≡ program_held h.now }
{
    value_of(words::word(h, 2), words::word(h, 3))
}

// 0, or 1 + the next instruction
#[tactic(auto, unfolding(crate::specs::Words::position))]
pub fn position(h: &[u32]) -> u32
    ensures { result ≡ position h.now }
{
    words::word(h, 4)
}

// 0, or 31 to 37
#[tactic(auto, unfolding(crate::specs::Words::end_mark))]
pub fn end_mark(h: &[u32]) -> u32
    ensures { result ≡ end_mark h.now }
{
    words::word(h, 5)
}

#[tactic(auto, unfolding(crate::specs::Words::set_self))]
pub fn set_self(h: &mut [u32], v: Value)
    ensures { h.new ≡ set_self h.old v }
{
    words::set_word(h, 0, tag_of(v));
    words::set_word(h, 1, number_of(v));
}

#[tactic(auto, unfolding(crate::specs::Words::set_program))]
pub fn set_program(h: &mut [u32], v: Value)
    ensures { h.new ≡ set_program h.old v }
{
    words::set_word(h, 2, tag_of(v));
    words::set_word(h, 3, number_of(v));
}

#[tactic(auto, unfolding(crate::specs::Words::set_position))]
pub fn set_position(h: &mut [u32], p: u32)
    ensures { h.new ≡ set_position h.old p }
{
    words::set_word(h, 4, p);
}

#[tactic(auto, unfolding(crate::specs::Words::set_end_mark))]
pub fn set_end_mark(h: &mut [u32], e: u32)
    ensures { h.new ≡ set_end_mark h.old e }
{
    words::set_word(h, 5, e);
}

// ---- Frames

// The word that says whether the frame is in use: 0 or 1.
#[tactic(auto, unfolding(crate::specs::Words::frame_word))]
pub fn frame_word(h: &[u32], f: u32) -> u32
    ensures { result ≡ frame_word h.now f }
{
    words::word(h, 128 + 51 * words::wide(f))
}

#[tactic(auto, unfolding(crate::specs::Words::frame_used))]
pub fn frame_used(h: &[u32], f: u32) -> bool
    ensures { result ≡ frame_used h.now f }
{
    frame_word(h, f) == 1
}

#[tactic(auto, unfolding(crate::specs::Words::slot_count_at))]
pub fn slot_count(h: &[u32], f: u32) -> u32
    ensures { result ≡ slot_count_at h.now f }
{
    words::word(h, 129 + 51 * words::wide(f))
}

// The number of the instruction that made it: 1 + its place, 0 where it was made at loading.
#[tactic(auto, unfolding(crate::specs::Words::maker_at))]
pub fn maker(h: &[u32], f: u32) -> u32
    ensures { result ≡ maker_at h.now f }
{
    words::word(h, 130 + 51 * words::wide(f))
}

#[tactic(auto, unfolding(crate::specs::Words::slot_name_at))]
pub fn slot_name(h: &[u32], f: u32, i: u32) -> u32
    ensures { result ≡ slot_name_at h.now f i }
{
    words::word(h, 131 + 51 * words::wide(f) + 3 * words::wide(i))
}

#[tactic(auto, unfolding(crate::specs::Words::slot_tag_at))]
pub fn slot_tag(h: &[u32], f: u32, i: u32) -> u32
    ensures { result ≡ slot_tag_at h.now f i }
{
    words::word(h, 132 + 51 * words::wide(f) + 3 * words::wide(i))
}

#[tactic(auto, unfolding(crate::specs::Words::slot_number_at))]
pub fn slot_number(h: &[u32], f: u32, i: u32) -> u32
    ensures { result ≡ slot_number_at h.now f i }
{
    words::word(h, 133 + 51 * words::wide(f) + 3 * words::wide(i))
}

#[tactic(auto, unfolding(crate::specs::Words::slot_value_at))]
pub fn slot_value(h: &[u32], f: u32, i: u32) -> Value
    ensures { result ≡ slot_value_at h.now f i }
{
    value_of(slot_tag(h, f, i), slot_number(h, f, i))
}

#[tactic(auto, unfolding(crate::specs::Words::set_slot_value))]
pub fn set_slot_value(h: &mut [u32], f: u32, i: u32, v: Value)
    ensures { h.new ≡ set_slot_value h.old f i v }
{
    words::set_word(h, 132 + 51 * words::wide(f) + 3 * words::wide(i), tag_of(v));
    words::set_word(
        h,
        133 + 51 * words::wide(f) + 3 * words::wide(i),
        number_of(v),
    );
}

// One slot more at the end; a frame with 16 slots or more stays as it is.
pub fn add_slot(h: &mut [u32], f: u32, name: u32, v: Value)
    ensures { h.new ≡ add_slot h.old f name v }
{
    let n = slot_count(h, f);
    if 16 <= n {
        return;
    }
    words::set_word(h, 131 + 51 * words::wide(f) + 3 * words::wide(n), name);
    set_slot_value(h, f, n, v);
    words::set_word(h, 129 + 51 * words::wide(f), n + 1);
}

// In use, with no slots, of the maker m.
#[tactic(auto, unfolding(crate::specs::Words::take_frame))]
pub fn take_frame(h: &mut [u32], f: u32, m: u32)
    ensures { h.new ≡ take_frame h.old f m }
{
    words::set_word(h, 128 + 51 * words::wide(f), 1);
    words::set_word(h, 129 + 51 * words::wide(f), 0);
    words::set_word(h, 130 + 51 * words::wide(f), m);
}

#[tactic(auto, unfolding(crate::specs::Words::free_frame))]
pub fn free_frame(h: &mut [u32], f: u32)
    ensures { h.new ≡ free_frame h.old f }
{
    words::set_word(h, 128 + 51 * words::wide(f), 0);
}

// ---- Made texts

// 0 where the text is not in use, else 1 + its length.
#[tactic(auto, unfolding(crate::specs::Words::text_word))]
fn text_word(h: &[u32], k: u32) -> u32
    ensures { result ≡ text_word h.now k }
{
    words::word(h, 13184 + words::wide(k))
}

#[tactic(auto, unfolding(crate::specs::Words::text_used))]
pub fn text_used(h: &[u32], k: u32) -> bool
    ensures { result ≡ text_used h.now k }
{
    text_word(h, k) != 0
}

// 0 where the text is not in use.
#[tactic(auto, unfolding(crate::specs::Words::text_length))]
pub fn text_length(h: &[u32], k: u32) -> u32
    ensures { result ≡ text_length h.now k }
{
    text_word(h, k).saturating_sub(1)
}

#[tactic(auto, unfolding(crate::specs::Words::text_byte))]
pub fn text_byte(t: &[u8], k: u32, i: u32) -> u8
    ensures { result ≡ text_byte t.now k i }
{
    words::word(t, 64 * words::wide(k) + words::wide(i))
}

// In use, of n bytes; a length above 64 changes nothing.
pub fn take_text(h: &mut [u32], k: u32, n: u32)
    ensures { h.new ≡ take_text h.old k n }
{
    if 64 < n {
        return;
    }
    words::set_word(h, 13184 + words::wide(k), n + 1);
}

#[tactic(auto, unfolding(crate::specs::Words::free_text))]
pub fn free_text(h: &mut [u32], k: u32)
    ensures { h.new ≡ free_text h.old k }
{
    words::set_word(h, 13184 + words::wide(k), 0);
}

// ---- How many are in use

// How many of the numbers below 256 pass the test.
pub fn count<F: Fn(u32) -> bool>(test: F) -> u32
    requires { (i : ℕ) → i < 256 → F.pre test i }
    ensures { Counted (F.post test) result }
{
    let mut n = 0u32;
    for i in 0..256u32 {
        if test(i) {
            n += 1;
        }
    }
    n
}

pub fn count_frames(h: &[u32]) -> u32
    ensures { result ≡ length (frames_in_use h.now) }
{
    count(|f| frame_used(h, f))
}

pub fn count_texts(h: &[u32]) -> u32
    ensures { result ≡ length (texts_in_use h.now) }
{
    count(|k| text_used(h, k))
}
