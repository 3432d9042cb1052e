// One step: a line, or the return from place m. The registers go by value, the arrays are lent.
ghost use Rattle.std.specs.Prelude.{◌≡◌, ◌<◌};
ghost use Rattle.rules.specs.Bounds.{VariablesIn};
ghost use Rattle.state.specs.Machine.{done, did_of, HasSlot};
ghost use Rattle.guard.specs.Fields.{RegionsIn, Room};
ghost use Rattle.guard.specs.Call.{settled, tested_of};
ghost use Rattle.machine.specs.Ready.{CanStep};
ghost use Rattle.machine.specs.Step.{map_of, parts_of, after, step_of};

use guard::{call, checks, ret};
use line::kind::LineKind;
use line::read::line_at;
use line::{Line, read};
use rules::limits::{FUNCTIONS, LINES, OPEN, VARIABLES};
use state::machine::{Moved, Registers, stay};
use state::{trace, variables};

// A do: e is its row.
fn do_line(l: Line, h: Registers, variables: &mut [u16; VARIABLES], trace: &mut [u16]) -> Moved
    requires { (VariablesIn l.operands) × (h.at < 65535) × (HasSlot h trace.old) }
    ensures { done result variables.new trace.new ≡ did_of l.operands l.e h variables.old trace.old }
{
    trace::act(l.operands, l.e, h, variables, trace)
}

fn test_line(l: Line, h: Registers, variables: &[u16; VARIABLES], counters: &mut [u16]) -> Moved
    requires { (VariablesIn l.operands) × (RegionsIn l) × (h.at < 65535) × (Room h.depth counters.old) }
    ensures { settled result counters.new ≡ tested_of l h variables.now counters.old }
{
    let holds = variables::holds(l.operands, variables);
    let s = checks::test(l, holds, h.at, h.depth, counters);
    stay(s, h)
}

// `starts` has the first line of each function and `owners` the function of each line. They come one by one and not as a `Runnable`, since a
// step asks less of them: `CanStep`. The loop is the one caller, so that this is compiled into it.
pub fn line(
    lines: &[u8],
    starts: &[u16; FUNCTIONS + 1],
    owners: &[u8; LINES + 1],
    home: u16,
    h: Registers,
    resumes: &mut [u16; OPEN],
    functions: &mut [u8; OPEN],
    variables: &mut [u16; VARIABLES],
    counters: &mut [u16],
    trace: &mut [u16],
) -> Moved
    requires { CanStep lines.now starts.now h counters.old trace.old }
    ensures { after result resumes.new functions.new variables.new counters.new trace.new ≡ step_of lines.now (map_of starts.now owners.now home) (parts_of h resumes.old functions.old variables.old counters.old trace.old) }
{
    let next = h.function as usize + 1;
    let k = h.at;
    let d = h.depth;
    if k == starts[next] {
        return ret::returned(h, home, resumes, functions, counters);
    }
    let kind = read::kind_at(lines, k);
    match kind {
        LineKind::Do => do_line(line_at(lines, k), h, variables, trace),
        LineKind::Tick => stay(checks::tick(line_at(lines, k), k, d, counters), h),
        LineKind::Test => test_line(line_at(lines, k), h, variables, counters),
        LineKind::Leave => stay(checks::leave(line_at(lines, k), d, counters), h),
        LineKind::Out => stay(checks::out(line_at(lines, k), d, counters), h),
        LineKind::Call => {
            let l = line_at(lines, k);
            call::call(l, h, owners, resumes, functions, counters)
        }
        LineKind::Back => stay(checks::back(line_at(lines, k), h.last, k, d, counters), h),
        LineKind::Ret => {
            let l = line_at(lines, k);
            ret::ret(l, h, home, resumes, functions, counters)
        }
    }
}
