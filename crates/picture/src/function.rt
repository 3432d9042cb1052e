// The whole picture of one function, column by column.
ghost use Rattle.std.specs.Prelude.{◌≡◌, ◌-◌, ◌<◌, length};
ghost use Rattle.rules.specs.Limits.{counter_words};
ghost use Rattle.rules.specs.Line.{lines_in};
ghost use Rattle.rules.specs.Function.{function_at};

use crate::{column, frame};
use cells::column::cells;
use compare::spare::Spare;
use console::sheet::{Sheet, Written};
use line::Line;
use machine::table::Runnable;
use rules::answer::Swept;
use std::fmt;
use sweeper::unstruck::Unstruck;

// The number of the last function: that of the last line.
pub fn last_of(table: &Runnable) -> u8
    ensures { result ≡ function_at (lines_in table.now.lines.now) (length (lines_in table.now.lines.now) - 1) }
{
    let n = table.lines.len() / Line::WIDTH;
    table.owners[n - 1]
}

// Up to the columns. Where the run stood is told by any of them.
fn background<S: Sheet>(
    run: &Unstruck,
    function: u8,
    counters: &mut [u16],
    spare: &mut Spare,
    page: &mut S,
)
    requires { (function < function_at (lines_in run.now.table.now.lines.now) (length (lines_in run.now.table.now.lines.now))) × (length counters.old ≡ counter_words) }
{
    let f = function as usize;
    let from = run.table.starts[f];
    let to = run.table.starts[f + 1];
    let m = to - from;
    let c = cells(run, function, 0, counters, spare);
    frame::begin_on(function, m, page);
    let own = &c[from as usize..to as usize];
    column::stood_on(own, m + 1, page);
    frame::fifths_on(m, page);
}

// Whether any of them had more runs than are drawn one by one.
fn columns<S: Sheet>(
    run: &Unstruck,
    function: u8,
    counters: &mut [u16],
    spare: &mut Spare,
    page: &mut S,
) -> bool
    requires { (function < function_at (lines_in run.now.table.now.lines.now) (length (lines_in run.now.table.now.lines.now))) × (length counters.old ≡ counter_words) }
{
    let f = function as usize;
    let from = run.table.starts[f];
    let to = run.table.starts[f + 1];
    let mut mixed = false;
    for place in 0..=to - from {
        let c = cells(run, function, place, counters, spare);
        let own = &c[from as usize..to as usize];
        mixed |= column::draw_on(run.table.lines, from, place, own, page);
    }
    mixed
}

pub fn draw_on<S: Sheet>(
    run: &Unstruck,
    function: u8,
    swept: Swept,
    counters: &mut [u16],
    spare: &mut Spare,
    page: &mut S,
)
    requires { (function < function_at (lines_in run.now.table.now.lines.now) (length (lines_in run.now.table.now.lines.now))) × (length counters.old ≡ counter_words) }
{
    background(run, function, counters, spare, page);
    let mixed = columns(run, function, counters, spare, page);
    let (_, m) = run.table.places_of(function);
    frame::end_on(swept, m, mixed, page);
}

pub fn draw<W: fmt::Write>(
    run: &Unstruck,
    function: u8,
    swept: Swept,
    counters: &mut [u16],
    spare: &mut Spare,
    page: &mut W,
) -> fmt::Result
    requires { (function < function_at (lines_in run.now.table.now.lines.now) (length (lines_in run.now.table.now.lines.now))) × (length counters.old ≡ counter_words) }
{
    let mut written = Written::new(page);
    draw_on(run, function, swept, counters, spare, &mut written);
    written.result
}
