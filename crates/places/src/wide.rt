// A wide jump needs no run: the theorem has the step in which it ends.
ghost use Rattle.std.specs.Prelude.{◌≡◌, ◌+◌, ◌*◌, ◌≤◌, length};
ghost use Rattle.rules.specs.Bounds.{VariablesIn};
ghost use Rattle.rules.specs.Line.{line_width};
ghost use Rattle.line.specs.Read.{struct_at};
ghost use Rattle.places.specs.Places.{late, wide_do, wide_at, wide_last, DosIn};

use line::kind::LineKind;
use line::read;
use rules::ending::Ending;
use rules::limits::VARIABLES;
use state::variables::compute;

// The alarm comes one step after the jump, if so many steps are left, of which the step struck is the first.
fn alarm_late(left: u16) -> Ending
    ensures { result ≡ late left }
{
    if 1 < left {
        return Ending::Alarmed;
    }
    Ending::Unfinished
}

// Before a do: one that overflows ends the run, and before any other the alarm is late.
fn before_do(lines: &[u8], line: u16, variables: &[u16; VARIABLES], left: u16) -> Ending
    requires { (line_width * line + line_width ≤ length lines.now) × (VariablesIn (struct_at lines.now line).operands) }
    ensures { result ≡ wide_do (struct_at lines.now line).operands variables.now left }
{
    let l = read::line_at(lines, line);
    let c = compute(l.operands, variables);
    match c {
        Some(_) => alarm_late(left),
        None => Ending::Unfinished,
    }
}

// How a wide jump to this line ends with so many steps left, of which the step struck is the first. Before a guard the alarm comes at once.
pub fn before_line(lines: &[u8], line: u16, variables: &[u16; VARIABLES], left: u16) -> Ending
    requires { (line_width * line + line_width ≤ length lines.now) × (DosIn lines.now) }
    ensures { result ≡ wide_at lines.now variables.now left line }
{
    let kind = read::kind_at(lines, line);
    match kind {
        LineKind::Do => before_do(lines, line, variables, left),
        LineKind::Tick
        | LineKind::Test
        | LineKind::Leave
        | LineKind::Out
        | LineKind::Call
        | LineKind::Back
        | LineKind::Ret => Ending::Alarmed,
    }
}

// At place m the alarm is late where a function waits: else the host finds it at once.
pub fn at_last(depth: u16, left: u16) -> Ending
    ensures { result ≡ wide_last depth left }
{
    if 0 < depth {
        return alarm_late(left);
    }
    Ending::Alarmed
}
