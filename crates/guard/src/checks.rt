// The lines that change nothing but counters: tick, test, leave, out and back.
ghost use Rattle.std.specs.Prelude.{◌≡◌, ◌<◌};
ghost use Rattle.rules.specs.Limits.{max_regions};
ghost use Rattle.guard.specs.Guard.{counted, tick_of, test_of, leave_of, out_of, back_of};
ghost use Rattle.guard.specs.Fields.{RegionsIn, LeaveIn, OutIn, Room};

use crate::counters;
use line::Line;
use rules::step::Step;

pub fn tick(l: Line, at: u16, depth: u16, counters: &mut [u16]) -> Step
    requires { (l.r < max_regions) × (at < 65535) × (Room depth counters.old) }
    ensures { counted result counters.new ≡ tick_of l at depth counters.old }
{
    let held = counters::get(counters, depth, l.r);
    if held != l.e {
        return Step::Alarm;
    }
    counters::put(counters, depth, l.r, l.a);
    Step::Went(at + 1)
}

pub fn test(l: Line, holds: bool, at: u16, depth: u16, counters: &mut [u16]) -> Step
    requires { (RegionsIn l) × (at < 65535) × (Room depth counters.old) }
    ensures { counted result counters.new ≡ test_of l holds at depth counters.old }
{
    let outer = counters::get(counters, depth, l.r);
    if outer != l.e {
        return Step::Alarm;
    }
    counters::put(counters, depth, l.r, l.a);
    if holds {
        counters::put(counters, depth, l.s, l.b);
        return Step::Went(at + 1);
    }
    counters::put(counters, depth, l.t, l.c);
    Step::Went(l.go)
}

pub fn leave(l: Line, depth: u16, counters: &mut [u16]) -> Step
    requires { (LeaveIn l) × (Room depth counters.old) }
    ensures { counted result counters.new ≡ leave_of l depth counters.old }
{
    let child = counters::get(counters, depth, l.r);
    if child != l.e {
        return Step::Alarm;
    }
    counters::put(counters, depth, l.r, 0);
    let around = counters::get(counters, depth, l.s);
    if around != l.b {
        return Step::Alarm;
    }
    counters::put(counters, depth, l.s, l.a);
    Step::Went(l.go)
}

pub fn out(l: Line, depth: u16, counters: &mut [u16]) -> Step
    requires { (OutIn l) × (Room depth counters.old) }
    ensures { counted result counters.new ≡ out_of l depth counters.old }
{
    let inner = counters::get(counters, depth, l.r);
    if inner != l.e {
        return Step::Alarm;
    }
    let from = counters::index(depth, l.t);
    let n = (l.r + 1 - l.t) as usize;
    counters::zero_part(counters, from, n);
    counters::put(counters, depth, l.s, l.a);
    Step::Went(l.go)
}

// The function that returned last ended at `last`.
pub fn back(l: Line, last: u16, at: u16, depth: u16, counters: &mut [u16]) -> Step
    requires { (l.r < max_regions) × (at < 65535) × (Room depth counters.old) }
    ensures { counted result counters.new ≡ back_of l last at depth counters.old }
{
    let caller = counters::get(counters, depth, l.r);
    if caller != l.e {
        return Step::Alarm;
    }
    if last != l.b {
        return Step::Alarm;
    }
    counters::put(counters, depth, l.r, l.a);
    Step::Went(at + 1)
}
