// The jump across one do, which no guard sees: it is run from a copy of the state.
ghost use Rattle.std.specs.Prelude.{◌≡◌};
ghost use Rattle.rules.specs.Line.{lines_in};
ghost use Rattle.rules.specs.Hardened.{Hardened};
ghost use Rattle.rules.specs.Settled.{StandsBefore};
ghost use Rattle.machine.specs.Stands.{Inside};
ghost use Rattle.compare.specs.Compared.{Stood, Standing, ends_at};
ghost use Rattle.compare.specs.Narrow.{NarrowIs};

use crate::pieces;
use crate::spare::Spare;
use machine::table::Runnable;
use places::across::line_across;
use rules::ending::Ending;
use state::machine::{Machine, at_line};

// How the run ends that goes on at this line of the running function; where it stands there already, nothing is run.
fn ending(
    table: &Runnable,
    machine: Machine,
    line: u16,
    left: u16,
    known: &[u16],
    counters: &[u16],
    spare: &mut Spare,
) -> Ending
    requires { (Standing (lines_in table.now.lines.now) machine counters.now) × (Inside (lines_in table.now.lines.now) machine.registers.function line) }
    ensures { (s : Hardened) → Stood (lines_in table.now.lines.now) machine counters.now s → result ≡ ends_at (lines_in table.now.lines.now) known.now left line s }
{
    let h = machine.registers;
    if line == h.at {
        return Ending::Same;
    }
    spare.counters.copy_from_slice(counters);
    let landed = at_line(machine, line);
    pieces::ending(table, landed, left, known, spare)
}

// The line across the do, or the line where the run stands, and how the run ends that goes on there.
#[derive(Drop)]
pub struct Narrow {
    pub line: u16,
    pub ending: Ending,
}

pub fn across(
    table: &Runnable,
    machine: Machine,
    left: u16,
    known: &[u16],
    counters: &[u16],
    spare: &mut Spare,
) -> Narrow
    requires { (Standing (lines_in table.now.lines.now) machine counters.now) × (StandsBefore (lines_in table.now.lines.now) machine.registers.function machine.registers.at) }
    ensures { NarrowIs (lines_in table.now.lines.now) machine counters.now known.now left result }
{
    let h = machine.registers;
    let line = line_across(table.lines, h.at);
    let ending = ending(table, machine, line, left, known, counters, spare);
    Narrow { line, ending }
}
