// A call: its guard is checked before the limit of open functions.
ghost use Rattle.std.specs.Prelude.{◌≡◌, ◌<◌};
ghost use Rattle.guard.specs.Fields.{CallIn, Room};
ghost use Rattle.guard.specs.Call.{shifted, call_of};

use crate::counters;
use line::Line;
use rules::limits::{DEEPEST, LINES, OPEN};
use rules::step::Step;
use state::machine::{Moved, Registers, stay};
use state::open::opening;

// `owners` has the function of each line.
pub fn call(
    l: Line,
    h: Registers,
    owners: &[u8; LINES + 1],
    resumes: &mut [u16; OPEN],
    functions: &mut [u8; OPEN],
    counters: &mut [u16],
) -> Moved
    requires { (CallIn l) × (h.at < 65535) × (Room h.depth counters.old) }
    ensures { shifted result resumes.new functions.new counters.new ≡ call_of l owners.now h resumes.old functions.old counters.old }
{
    let held = counters::get(counters, h.depth, l.r);
    let wrong = held != l.e;
    let full = DEEPEST <= h.depth + 1;
    if wrong {
        return stay(Step::Alarm, h);
    }
    if full {
        return stay(Step::TooManyOpen(DEEPEST), h);
    }
    counters::put(counters, h.depth, l.r, l.a);
    counters::fresh(counters, h.depth + 1, l.b);
    opening(h, owners[l.go as usize], l.go, resumes, functions)
}
