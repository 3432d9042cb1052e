// A run that something may strike.
ghost use Rattle.std.specs.Prelude.{◌≡◌};
ghost use Rattle.rules.specs.Line.{lines_in};
ghost use Rattle.machine.specs.Run.{parts_in, stopped_with};
ghost use Rattle.machine.specs.Runnable.{map_in};
ghost use Rattle.machine.specs.Stands.{Going};
ghost use Rattle.strike.specs.Struck.{land_of, jump_of, struck_of};

use machine::run::run_lines;
use machine::table::Runnable;
use rules::step::Step;
use rules::strike::Jump;
use state::machine::{Machine, Stopped, at_line};

// The running function goes to a place of its own, and the run goes on from there; a place beyond its last ends the run.
pub fn land(
    table: &Runnable,
    machine: Machine,
    left: u16,
    place: u16,
    counters: &mut [u16],
    trace: &mut [u16],
) -> Stopped
    requires { Going (lines_in table.now.lines.now) left (parts_in machine counters.old trace.old) }
    ensures { stopped_with result counters.new trace.new ≡ land_of table.now.lines.now (map_in table.now) left place (parts_in machine counters.old trace.old) }
{
    let (first, last) = table.places_of(machine.registers.function);
    if last < place {
        return Stopped {
            step: Step::Beyond(last),
            machine,
        };
    }
    let struck = at_line(machine, first + place);
    run_lines(table, struck, left, counters, trace)
}

// A jump: to the step that it names, there to its place, and on. One before a step that the budget does not hold is none.
fn jump(
    table: &Runnable,
    start: Machine,
    budget: u16,
    step: u16,
    place: u16,
    counters: &mut [u16],
    trace: &mut [u16],
) -> Stopped
    requires { Going (lines_in table.now.lines.now) budget (parts_in start counters.old trace.old) }
    ensures { stopped_with result counters.new trace.new ≡ jump_of table.now.lines.now (map_in table.now) budget step place (parts_in start counters.old trace.old) }
{
    if budget <= step {
        return run_lines(table, start, budget, counters, trace);
    }
    let x = run_lines(table, start, step, counters, trace);
    let s = x.step;
    let Step::Went(_) = s else {
        return x;
    };
    let left = budget - step;
    land(table, x.machine, left, place, counters, trace)
}

pub fn strike(
    table: &Runnable,
    start: Machine,
    budget: u16,
    strike: Option<Jump>,
    counters: &mut [u16],
    trace: &mut [u16],
) -> Stopped
    requires { Going (lines_in table.now.lines.now) budget (parts_in start counters.old trace.old) }
    ensures { stopped_with result counters.new trace.new ≡ struck_of table.now.lines.now (map_in table.now) budget strike (parts_in start counters.old trace.old) }
{
    match strike {
        None => run_lines(table, start, budget, counters, trace),
        Some((step, place)) => jump(table, start, budget, step, place, counters, trace),
    }
}
