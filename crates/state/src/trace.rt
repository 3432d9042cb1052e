// The rows of the dos that a run has done.
ghost use Rattle.std.specs.Prelude.{◌≡◌, ◌<◌};
ghost use Rattle.rules.specs.Bounds.{VariablesIn};
ghost use Rattle.rules.specs.declared.step.Step.TheVariants.{Overflow};
ghost use Rattle.state.specs.Machine.{HasSlot, moved, done, put_of, did_of};

use crate::machine::{Moved, Registers, standing, stay};
use crate::variables;
use rules::limits::VARIABLES;
use rules::operands::Operands;
use rules::step::Step;

// Variable p gets x, the row goes into the next trace slot, and the run goes on at the next row or line. The registers are made
// anew, as in `standing`.
fn put(
    p: u16,
    x: u16,
    row: u16,
    h: Registers,
    variables: &mut [u16; VARIABLES],
    trace: &mut [u16],
) -> Moved
    requires { (p < 16) × (h.at < 65535) × (HasSlot h trace.old) }
    ensures { done result variables.new trace.new ≡ put_of p x row h variables.old trace.old }
{
    variables[p as usize] = x;
    let k = h.traced as usize;
    trace[k] = row;
    let at = h.at + 1;
    stay(
        Step::Went(at),
        Registers {
            at,
            traced: h.traced + 1,
            ..h
        },
    )
}

// The run ends before anything changes, where the variable holds `held`.
fn over(row: u16, held: u16, h: Registers) -> Moved
    ensures { result ≡ moved (Overflow row held) h }
{
    stay(Step::Overflow(row, held), standing(h, h.at, h.steps))
}

// A do, in either run: its variable changes, its row goes into the next trace slot, and the run goes on at the next row or line. One that
// overflows ends the run. Each case has a function of its own: written out in one, the compiler brings what they answer together again.
pub fn act(
    o: Operands,
    row: u16,
    h: Registers,
    variables: &mut [u16; VARIABLES],
    trace: &mut [u16],
) -> Moved
    requires { (VariablesIn o) × (h.at < 65535) × (HasSlot h trace.old) }
    ensures { done result variables.new trace.new ≡ did_of o row h variables.old trace.old }
{
    let c = variables::compute(o, variables);
    match c {
        // The variable is the do's own. Taken from the pair it would be kept in one word with the number (docs/SPEED.md).
        Some((_, x)) => put(o.p as u16, x, row, h, variables, trace),
        None => {
            let held = variables[o.p as usize];
            over(row, held, h)
        }
    }
}
