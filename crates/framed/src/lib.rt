// The public types of the frame machine. The definitions in specs/ speak of these; specs/Answers.antt gives each case of an answer document 01's number or word.
#![tactic(auto)]

// A text: a string literal of the program or a made text, each by its number.
#[derive(Clone, Copy)]
pub enum Text {
    Literal(u32),
    Made(u32),
}

// A value: an integer, a text, a code literal or a frame, each carrying its number.
#[derive(Clone, Copy)]
pub enum Value {
    Int(i32),
    Text(Text),
    Code(u32),
    Frame(u32),
}

// Which end a step meets: document 01's numbers 31 to 37.
#[derive(Clone, Copy, PartialEq, Eq)]
pub enum End {
    NoRule = 31,
    DivisorZero = 32,
    IntegerRange = 33,
    TextLength = 34,
    SlotLimit = 35,
    FramesFull = 36,
    TextsFull = 37,
}

// Why load refuses a source: document 01's numbers 1 to 12.
#[derive(Clone, Copy, PartialEq, Eq)]
pub enum LoadRefusal {
    MemoryLength = 1,
    LimitRange = 2,
    SourceLength = 3,
    NoToken = 4,
    Nesting = 5,
    NotOneFrame = 6,
    OutsideCode = 7,
    BadFrame = 8,
    CountLimit = 9,
    AboveProgram = 10,
    NoStart = 11,
    WrittenFrames = 12,
}

// What load answers: loaded, or why not.
#[derive(Clone, Copy)]
pub enum LoadAnswer {
    Loaded,
    MemoryLength,
    LimitRange,
    SourceLength,
    NoToken,
    Nesting,
    NotOneFrame,
    OutsideCode,
    BadFrame,
    CountLimit,
    AboveProgram,
    NoStart,
    WrittenFrames,
}

// Why a run stopped: done, with an end of a step, at its fuel, or for want of output space.
#[derive(Clone, Copy)]
pub enum Stop {
    Done,
    NoRule,
    DivisorZero,
    IntegerRange,
    TextLength,
    SlotLimit,
    FramesFull,
    TextsFull,
    Fuel,
    Output,
}

// What a run reports: its stop, the steps made and the bytes written.
#[derive(Clone, Copy)]
pub struct RunReport {
    pub stop: Stop,
    pub steps: u32,
    pub bytes: usize,
}

// What run answers: a report, or that the memories are not well-formed.
#[derive(Clone, Copy)]
pub enum RunAnswer {
    Stopped(RunReport),
    NotWellFormed,
}

// What a collection reports: the frames and the made texts reached.
#[derive(Clone, Copy)]
pub struct Totals {
    pub frames: u32,
    pub texts: u32,
}

// What collect answers: the totals, or that the memories are not well-formed.
#[derive(Clone, Copy)]
pub enum CollectAnswer {
    Collected(Totals),
    NotWellFormed,
}

// What write answers: the length of the text; or why not.
#[derive(Clone, Copy)]
pub enum WriteAnswer {
    Written(usize),
    NotWellFormed,
    ShortBuffer,
}

// What makers answers: that the counts are written, or that the memories are not well-formed.
#[derive(Clone, Copy)]
pub enum MakersAnswer {
    Counted,
    NotWellFormed,
}

// What look answers: the kind, for an integer with the number, for a frame with the number of the instruction that made it (0: at loading); or why not.
#[derive(Clone, Copy)]
pub enum LookAnswer {
    Integer(i32),
    Text,
    Code,
    Frame(u32),
    NotWellFormed,
    NotPath,
    Undefined,
}
