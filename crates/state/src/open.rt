// The open functions: those that wait, each with its number and where it goes on, and the running one.
ghost use Rattle.std.specs.Prelude.{◌≡◌, ◌<◌};
ghost use Rattle.rules.specs.Limits.{max_open};
ghost use Rattle.state.specs.Open.{opened, opened_of, closed_of};

use crate::machine::{Moved, Registers, stay};
use rules::limits::OPEN;
use rules::step::Step;

// The running function waits at the next row or line, and another one opens.
pub fn opening(
    h: Registers,
    function: u8,
    go: u16,
    resumes: &mut [u16; OPEN],
    functions: &mut [u8; OPEN],
) -> Moved
    requires { (h.depth < 15) × (h.at < 65535) }
    ensures { opened result resumes.new functions.new ≡ opened_of h function go resumes.old functions.old }
{
    let d = h.depth as usize;
    resumes[d] = h.at + 1;
    functions[d] = h.function;
    stay(
        Step::Went(go),
        Registers {
            depth: h.depth + 1,
            function,
            at: go,
            ..h
        },
    )
}

// The running function, whose region 0 ended at v, returns to the one that waited last.
pub fn returning(h: Registers, v: u16, resumes: &[u16; OPEN], functions: &[u8; OPEN]) -> Moved
    requires { (0 < h.depth) × (h.depth < max_open) }
    ensures { result ≡ closed_of h v resumes.now functions.now }
{
    let k = (h.depth - 1) as usize;
    let at = resumes[k];
    stay(
        Step::Went(at),
        Registers {
            depth: h.depth - 1,
            function: functions[k],
            at,
            last: v,
            ..h
        },
    )
}
