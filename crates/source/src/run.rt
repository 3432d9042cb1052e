// A run of at most as many steps as its budget.
ghost use Rattle.source.specs.Run.{parts_in, stopped_with, Going, Ended};

use crate::step;
use crate::table::Runnable;
use rules::step::Step;
use state::machine::{Machine, Stopped, at_end, standing};

// Takes the machine apart, so that its registers stay in those of the processor, and puts it together where it stops.
pub fn run_rows(table: Runnable, start: Machine, budget: u16, trace: &mut [u16]) -> Stopped
    requires { Going table.rows.now budget (parts_in start trace.old) }
    ensures { Ended table.entry.rows.now budget (parts_in start trace.old) (stopped_with result trace.new) }
{
    let mut resumes = start.resumes;
    let mut functions = start.functions;
    let mut variables = start.variables;
    let mut h = start.registers;
    // Counted in a machine word: in 16 bits the count takes two numbers (docs/SPEED.md).
    for _ in 0..usize::from(budget) {
        let steps = h.steps + 1;
        let t = step::row(
            table,
            h,
            &mut resumes,
            &mut functions,
            &mut variables,
            trace,
        );
        let s = t.step;
        let n = t.registers;
        h = standing(n, n.at, steps);
        let Step::Went(_) = s else {
            return at_end(s, resumes, functions, variables, h);
        };
    }
    at_end(Step::Went(h.at), resumes, functions, variables, h)
}

// One step is a run of one.
pub fn step(table: Runnable, machine: Machine, trace: &mut [u16]) -> Stopped
    requires { Going table.rows.now 1 (parts_in machine trace.old) }
    ensures { Ended table.entry.rows.now 1 (parts_in machine trace.old) (stopped_with result trace.new) }
{
    run_rows(table, machine, 1, trace)
}
