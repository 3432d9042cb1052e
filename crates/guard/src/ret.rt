// Returns: a ret, and the return from place m.
ghost use Rattle.std.specs.Prelude.{◌≡◌};
ghost use Rattle.guard.specs.Fields.{Room};
ghost use Rattle.guard.specs.Call.{settled, return_of, ret_of};

use crate::counters;
use line::Line;
use rules::limits::OPEN;
use rules::step::Step;
use state::machine::{Moved, Registers, stay};
use state::open::returning;

// The running function returns; `home` is the a of function 0's ret, for the host.
pub fn returned(
    h: Registers,
    home: u16,
    resumes: &[u16; OPEN],
    functions: &[u8; OPEN],
    counters: &[u16],
) -> Moved
    requires { Room h.depth counters.now }
    ensures { result ≡ return_of home h resumes.now functions.now counters.now }
{
    let v = counters::get(counters, h.depth, 0);
    if 0 < h.depth {
        return returning(h, v, resumes, functions);
    }
    if v != home {
        return stay(Step::Alarm, h);
    }
    stay(Step::Finished, h)
}

pub fn ret(
    l: Line,
    h: Registers,
    home: u16,
    resumes: &[u16; OPEN],
    functions: &[u8; OPEN],
    counters: &mut [u16],
) -> Moved
    requires { Room h.depth counters.old }
    ensures { settled result counters.new ≡ ret_of l home h resumes.now functions.now counters.old }
{
    let held = counters::get(counters, h.depth, 0);
    if held != l.e {
        return stay(Step::Alarm, h);
    }
    counters::put(counters, h.depth, 0, l.a);
    returned(h, home, resumes, functions, counters)
}
