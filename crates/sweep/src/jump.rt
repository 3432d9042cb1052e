// A jump across one do as `list` tells it: the step, the function, both places, the row of the do, and what became of it.
ghost use Rattle.sweep.specs.Lands.{Lands};

use console::page::Page;
use line::read;
use machine::table::Runnable;
use state::machine::Registers;

// Where a line is past the do, the do is left out; where it is the do itself, that is done twice.
fn outcome(from: u16, to: u16) -> &'static str {
    if from < to {
        " left out\n"
    } else {
        " done twice\n"
    }
}

// The do's line is the lower of the two; its e is its row.
fn row(table: &Runnable, h: Registers, line: u16) -> u16
    requires { Lands table.now.lines.now table.now.starts h line }
{
    read::line_at(table.lines, h.at.min(line)).e
}

pub fn tell<P: Print>(table: &Runnable, h: Registers, line: u16, step: u16, page: &mut Page<P>)
    requires { Lands table.now.lines.now table.now.starts h line }
{
    let first = table.starts[h.function as usize];
    page.named(b"step ", step.into());
    page.named(b" function ", h.function.into());
    page.named(b" from place ", (h.at - first).into());
    page.named(b" to place ", (line - first).into());
    page.named(b" row ", row(table, h, line).into());
    page.word(outcome(h.at, line).as_bytes());
}
