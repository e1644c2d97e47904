// The numbers of answers, for programs and for C.
#![tactic(auto)]

ghost use Rattle.std.specs.Prelude.{◌≡◌};
ghost use Rattle.framed.specs.Answers.{end_number, load_number, load_refusal_number, stop_word, makers_number};
ghost use Rattle.answers.specs.Numbers.{stopped_number, run_number, collect_number, look_number, write_number};

use framed::{
    CollectAnswer, End, LoadAnswer, LoadRefusal, LookAnswer, MakersAnswer, RunAnswer, Stop,
    WriteAnswer,
};

pub fn load_number(a: LoadAnswer) -> u32
    ensures { result ≡ load_number a }
{
    match a {
        LoadAnswer::Loaded => 0,
        LoadAnswer::MemoryLength => 1,
        LoadAnswer::LimitRange => 2,
        LoadAnswer::SourceLength => 3,
        LoadAnswer::NoToken => 4,
        LoadAnswer::Nesting => 5,
        LoadAnswer::NotOneFrame => 6,
        LoadAnswer::OutsideCode => 7,
        LoadAnswer::BadFrame => 8,
        LoadAnswer::CountLimit => 9,
        LoadAnswer::AboveProgram => 10,
        LoadAnswer::NoStart => 11,
        LoadAnswer::WrittenFrames => 12,
    }
}

// 1 to 12.
pub fn load_refusal_number(refusal: LoadRefusal) -> u32
    ensures { result ≡ load_refusal_number refusal }
{
    refusal as u32
}

// 31 to 37.
pub fn end_number(e: End) -> u32
    ensures { result ≡ end_number e }
{
    match e {
        End::NoRule => 31,
        End::DivisorZero => 32,
        End::IntegerRange => 33,
        End::TextLength => 34,
        End::SlotLimit => 35,
        End::FramesFull => 36,
        End::TextsFull => 37,
    }
}

pub fn stop_number(stop: Stop) -> u32
    ensures { result ≡ stopped_number (stop_word stop) }
{
    match stop {
        Stop::Done => 0,
        Stop::NoRule => 31,
        Stop::DivisorZero => 32,
        Stop::IntegerRange => 33,
        Stop::TextLength => 34,
        Stop::SlotLimit => 35,
        Stop::FramesFull => 36,
        Stop::TextsFull => 37,
        Stop::Fuel => 1,
        Stop::Output => 2,
    }
}

pub fn run_number(a: RunAnswer) -> u32
    ensures { result ≡ run_number a }
{
    match a {
        RunAnswer::Stopped(report) => {
            let stop = report.stop;
            stop_number(stop)
        }
        RunAnswer::NotWellFormed => 20,
    }
}

pub fn collect_number(a: CollectAnswer) -> u32
    ensures { result ≡ collect_number a }
{
    match a {
        CollectAnswer::Collected(_totals) => 0,
        CollectAnswer::NotWellFormed => 20,
    }
}

pub fn look_number(a: LookAnswer) -> u32
    ensures { result ≡ look_number a }
{
    match a {
        LookAnswer::Integer(_n) => 1,
        LookAnswer::Text => 2,
        LookAnswer::Code => 3,
        LookAnswer::Frame(_n) => 4,
        LookAnswer::NotWellFormed => 20,
        LookAnswer::NotPath => 21,
        LookAnswer::Undefined => 22,
    }
}

pub fn write_number(a: WriteAnswer) -> u32
    ensures { result ≡ write_number a }
{
    match a {
        WriteAnswer::Written(_n) => 0,
        WriteAnswer::NotWellFormed => 20,
        WriteAnswer::ShortBuffer => 23,
    }
}

pub fn makers_number(a: MakersAnswer) -> u32
    ensures { result ≡ makers_number a }
{
    match a {
        MakersAnswer::Counted => 0,
        MakersAnswer::NotWellFormed => 20,
    }
}
