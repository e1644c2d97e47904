// The number that a run stops with, from the end that is marked and from the heap words.
#![tactic(auto)]

ghost use Rattle.std.specs.Prelude.{◌≡◌};
ghost use Rattle.stops.specs.Stops.{stop_of, stop_here};

use framed::Stop;

// The stop with an end: 0 done, 31 to 37.
pub fn stop_of(e: u32) -> Stop
    ensures { result ≡ stop_of e }
{
    if e == 0 {
        return Stop::Done;
    }
    if e == 31 {
        return Stop::NoRule;
    }
    if e == 32 {
        return Stop::DivisorZero;
    }
    if e == 33 {
        return Stop::IntegerRange;
    }
    if e == 34 {
        return Stop::TextLength;
    }
    if e == 35 {
        return Stop::SlotLimit;
    }
    if e == 36 {
        return Stop::FramesFull;
    }
    Stop::TextsFull
}

// The stop where the fuel is spent: marked or done comes first.
pub fn stop_here(h: &[u32]) -> Stop
    ensures { result ≡ stop_here h.now }
{
    let e = heap::end_mark(h);
    if e != 0 {
        return stop_of(e);
    }
    if heap::position(h) == 0 {
        return Stop::Done;
    }
    Stop::Fuel
}
