// One strike of a sweep, out of where the run stands.
ghost use Rattle.std.specs.Prelude.{◌≡◌};
ghost use Rattle.rules.specs.Line.{lines_in};
ghost use Rattle.rules.specs.Settled.{StandsBefore};
ghost use Rattle.places.specs.Places.{wide_of};
ghost use Rattle.compare.specs.Compared.{Standing};
ghost use Rattle.sweeper.specs.Steps.{last_of};
ghost use Rattle.cells.specs.Struck.{PlaceOf, InLines, EndingIs, StruckIs};

use crate::rank::Rank;
use compare::narrow;
use compare::spare::Spare;
use machine::table::Runnable;
use places::across::line_across;
use places::wide;
use rules::ending::Ending;
use state::machine::Machine;

// A wide jump, which needs no run.
fn wide_ending(table: &Runnable, machine: Machine, line: u16, left: u16) -> Ending
    requires { InLines table.now.lines.now table.now.starts machine.registers.function line }
    ensures { result ≡ wide_of table.now.lines.now line (last_of table.now.starts machine.registers) machine.registers.depth machine.variables left }
{
    let h = machine.registers;
    let f = h.function as usize;
    if line == table.starts[f + 1] {
        return wide::at_last(h.depth, left);
    }
    let variables = machine.variables;
    wide::before_line(table.lines, line, &variables, left)
}

// How the run ends that goes on at this line of the running function. Only a jump across one do is run.
fn ending(
    table: &Runnable,
    machine: Machine,
    line: u16,
    left: u16,
    known: &[u16],
    counters: &[u16],
    spare: &mut Spare,
) -> Ending
    requires { (Standing (lines_in table.now.lines.now) machine counters.now) × (StandsBefore (lines_in table.now.lines.now) machine.registers.function machine.registers.at) × (InLines table.now.lines.now table.now.starts machine.registers.function line) }
    ensures { EndingIs table.now.lines.now table.now.starts machine counters.now known.now left line result }
{
    let h = machine.registers;
    if line == h.at {
        return Ending::Same;
    }
    if line == line_across(table.lines, h.at) {
        let n = narrow::across(table, machine, left, known, counters, spare);
        return n.ending;
    }
    wide_ending(table, machine, line, left)
}

// How bad the strike to this place of this function is; nothing where another function runs.
pub fn rank_of(
    table: &Runnable,
    machine: Machine,
    function: u8,
    place: u16,
    left: u16,
    known: &[u16],
    counters: &[u16],
    spare: &mut Spare,
) -> Rank
    requires { (Standing (lines_in table.now.lines.now) machine counters.now) × (StandsBefore (lines_in table.now.lines.now) machine.registers.function machine.registers.at) × (PlaceOf (lines_in table.now.lines.now) function place) }
    ensures { StruckIs table.now.lines.now table.now.starts machine counters.now known.now left function place result }
{
    let h = machine.registers;
    if h.function != function {
        return Rank::Never;
    }
    let f = function as usize;
    let line = table.starts[f] + place;
    let e = ending(table, machine, line, left, known, counters, spare);
    Rank::from(e)
}
