// A hardened run made step by step, each step listed before it is made. `walk` promises what `strike::struck::strike` does, so that what
// is listed is the run.
ghost use Rattle.std.specs.Prelude.{◌≡◌, true, ◌≤◌, length};
ghost use Rattle.rules.specs.Limits.{counter_words};
ghost use Rattle.rules.specs.Line.{lines_in};
ghost use Rattle.rules.specs.ReadBack.{is_hardened_lem};
ghost use Rattle.machine.specs.Runnable.{map_in};
ghost use Rattle.machine.specs.Run.{parts_in, stopped_with};
ghost use Rattle.machine.specs.Stands.{Going};
ghost use Rattle.strike.specs.Struck.{struck_of};
ghost use Rattle.show.specs.Due.{turn_of};

use crate::line_writer::LineWriter;
use crate::{due, limit, line_text};
use console::sheet::Sheet;
use guard::counters;
use machine::run;
use machine::table::Runnable;
use rules::limits::{COUNTERS, VARIABLES};
use rules::step::Step;
use rules::strike::Jump;
use state::machine::{Machine, Stopped, begun};
use std::fmt;
use strike::struck::land;

// What comes next is listed, and then made: the jump that is due, with no step after it, or one step. The run goes on where it can't be
// listed: what is lost the sheet knows.
fn turn<S: Sheet>(
    table: &Runnable,
    machine: Machine,
    strike: Option<Jump>,
    counters: &mut [u16],
    trace: &mut [u16],
    page: &mut S,
) -> Stopped
    requires { Going (lines_in table.now.lines.now) 1 (parts_in machine counters.old trace.old) }
    ensures { stopped_with result counters.new trace.new ≡ turn_of table.now.lines.now (map_in table.now) strike (parts_in machine counters.old trace.old) }
{
    if due::is_due(strike) {
        let place = due::place_of(strike);
        line_text::list_jump(place, page);
        return land(table, machine, 0, place, counters, trace);
    }
    let h = machine.registers;
    line_text::list(table, h, counters, page);
    run::step(table, machine, counters, trace)
}

fn walk<S: Sheet>(
    table: &Runnable,
    start: Machine,
    budget: u16,
    strike: Option<Jump>,
    counters: &mut [u16],
    trace: &mut [u16],
    page: &mut S,
) -> Stopped
    requires { Going (lines_in table.now.lines.now) budget (parts_in start counters.old trace.old) }
    ensures { stopped_with result counters.new trace.new ≡ struck_of table.now.lines.now (map_in table.now) budget strike (parts_in start counters.old trace.old) }
{
    let mut m = start;
    let mut left = budget;
    let mut rest = strike;
    // No for: a jump is a turn that takes none of the steps left.
    while 0 < left {
        let x = turn(table, m, rest, counters, trace, page);
        let s = x.step;
        let Step::Went(_) = s else {
            return x;
        };
        m = x.machine;
        left = due::left_after(left, rest);
        rest = due::later(rest);
    }
    let h = m.registers;
    Stopped {
        step: Step::Went(h.at),
        machine: m,
    }
}

// Here, and not as an array in place: so the proof has a name for them.
fn no_counters() -> [u16; COUNTERS]
    ensures { length result ≡ counter_words }
{
    [0; COUNTERS]
}

// The steps of a hardened table's run. What it leaves in the trace is not looked at afterwards.
fn list_accepted<S: Sheet>(
    lines: &[u8],
    variables: [u16; VARIABLES],
    budget: u16,
    strike: Option<Jump>,
    trace: &mut [u16],
    page: &mut S,
)
    requires lines_value { is_hardened_lem lines.now ≡ true }
    requires budget_in_bounds { budget ≤ length trace.old }
{
    let table = Runnable::of(lines);
    let mut counters = no_counters();
    counters::fresh(&mut counters, 0, 1);
    let start = begun(0, variables);
    let x = walk(&table, start, budget, strike, &mut counters, trace, page);
    let s = x.step;
    limit::list(s, page);
}

// Nothing is listed where the lines are no hardened table.
pub fn list_on<S: Sheet>(
    lines: &[u8],
    variables: [u16; VARIABLES],
    budget: u16,
    strike: Option<Jump>,
    trace: &mut [u16],
    page: &mut S,
)
    requires { budget ≤ length trace.old }
{
    if reader::is_hardened(lines) {
        list_accepted(lines, variables, budget, strike, trace, page);
    }
}

pub fn list<W: fmt::Write>(
    lines: &[u8],
    variables: [u16; VARIABLES],
    budget: u16,
    strike: Option<Jump>,
    trace: &mut [u16],
    page: &mut W,
)
    requires { budget ≤ length trace.old }
{
    let mut written = LineWriter::new(page);
    list_on(lines, variables, budget, strike, trace, &mut written);
}
