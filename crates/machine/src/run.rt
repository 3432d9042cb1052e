// A run of at most as many steps as its budget.
ghost use Rattle.std.specs.Prelude.{◌≡◌};
ghost use Rattle.rules.specs.Line.{lines_in};
ghost use Rattle.machine.specs.Run.{parts_in, stopped_with, run_of};
ghost use Rattle.machine.specs.Runnable.{map_in};
ghost use Rattle.machine.specs.Stands.{Going};

use crate::step;
use crate::table::Runnable;
use rules::step::Step;
use state::machine;
use state::machine::{Machine, Stopped};

// Takes the machine apart, so that its registers stay in those of the processor, and puts it together where it stops. The counters and slots
// are lent beside it, and `Going` speaks of all three: a fact about what is lent to be written can't stand in a struct yet.
pub fn run_lines(
    table: &Runnable,
    start: Machine,
    budget: u16,
    counters: &mut [u16],
    trace: &mut [u16],
) -> Stopped
    requires { Going (lines_in table.now.lines.now) budget (parts_in start counters.old trace.old) }
    ensures { stopped_with result counters.new trace.new ≡ run_of table.now.lines.now (map_in table.now) budget (parts_in start counters.old trace.old) }
{
    // By value: lent with the table they are read from memory again at each step, and a run took a fifth longer.
    let lines = table.lines;
    let home = table.home;
    let mut resumes = start.resumes;
    let mut functions = start.functions;
    let mut variables = start.variables;
    let mut h = start.registers;
    // Counted in a machine word: in 16 bits the count takes two numbers (docs/SPEED.md).
    for _ in 0..usize::from(budget) {
        let steps = h.steps + 1;
        let t = step::line(
            lines,
            &table.starts,
            &table.owners,
            home,
            h,
            &mut resumes,
            &mut functions,
            &mut variables,
            counters,
            trace,
        );
        let s = t.step;
        let n = t.registers;
        let Step::Went(k) = s else {
            let e = machine::standing(n, n.at, steps);
            return machine::at_end(s, resumes, functions, variables, e);
        };
        h = machine::standing(n, k, steps);
    }
    machine::at_end(Step::Went(h.at), resumes, functions, variables, h)
}

// One step is a run of one.
pub fn step(table: &Runnable, machine: Machine, counters: &mut [u16], trace: &mut [u16]) -> Stopped
    requires { Going (lines_in table.now.lines.now) 1 (parts_in machine counters.old trace.old) }
    ensures { stopped_with result counters.new trace.new ≡ run_of table.now.lines.now (map_in table.now) 1 (parts_in machine counters.old trace.old) }
{
    run_lines(table, machine, 1, counters, trace)
}
