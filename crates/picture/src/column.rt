// One column: the strikes to one place that did not end in an alarm, and what stands beside them.
ghost use Rattle.std.specs.Prelude.{◌+◌, ◌*◌, ◌≤◌, length};
ghost use Rattle.rules.specs.Limits.{max_lines};
ghost use Rattle.rules.specs.Line.{line_width};

use crate::label;
use crate::runs::{Drawn, Run, piece};
use cells::rank::Rank;
use console::sheet::{Sheet, Written};
use line::read;
use std::fmt;

// Runs that are drawn one by one.
const FEW: usize = 8;

fn open<S: Sheet>(class: u8, page: &mut S) {
    page.word(b"<path class=\"");
    page.put(class);
    page.word(b"\" d=\"");
}

fn close<S: Sheet>(page: &mut S) {
    page.word(b"\"/>\n");
}

// The places where the run stood: every strike out of them to a wide place is an alarm, but for those that are drawn over it.
pub fn stood_on<S: Sheet>(cells: &[Rank], width: u16, page: &mut S) {
    open(b'a', page);
    for run in Drawn::Struck.runs(cells) {
        piece(0, width, run, page);
    }
    close(page);
}

pub fn stood<W: fmt::Write>(cells: &[Rank], width: u16, page: &mut W) -> fmt::Result {
    let mut written = Written::new(page);
    stood_on(cells, width, &mut written);
    written.result
}

// The cells of one rank, where there are any.
fn path<S: Sheet>(class: u8, r: Rank, cells: &[Rank], place: u16, most: usize, page: &mut S) {
    if !cells.contains(&r) {
        return;
    }
    open(class, page);
    for run in Drawn::Of(r).runs(cells).take(most) {
        piece(place, 1, run, page);
    }
    close(page);
}

// From the first run that is not drawn one by one to the last.
fn behind_few(cells: &[Rank]) -> Option<Run> {
    let mut behind = Drawn::Of(Rank::Unfinished).runs(cells).skip(FEW);
    let first = behind.next()?;
    let last = behind.last().unwrap_or(first);
    Some(Run {
        from: first.from,
        to: last.to,
    })
}

// Eight runs at most, so that the picture stays small: all behind them is one piece of another class. Whether there are any.
fn unfinished<S: Sheet>(cells: &[Rank], place: u16, page: &mut S) -> bool {
    path(b'u', Rank::Unfinished, cells, place, FEW, page);
    let Some(behind) = behind_few(cells) else {
        return false;
    };
    open(b'x', page);
    piece(place, 1, behind, page);
    close(page);
    true
}

// Place m has no line.
fn labels<S: Sheet>(lines: &[u8], first: u16, place: u16, cells: &[Rank], page: &mut S)
    requires { (first + length cells.now ≤ max_lines) × (line_width * (first + length cells.now) ≤ length lines.now) }
{
    if cells.len() <= place as usize {
        return;
    }
    let kind = read::kind_at(lines, first + place);
    label::line(place, kind, page);
    label::narrow(lines, first, place, kind, cells, page);
}

// The column of this place of the function whose lines begin with `first`; a cell for each of them. Whether it had more runs than are drawn
// one by one.
pub fn draw_on<S: Sheet>(lines: &[u8], first: u16, place: u16, cells: &[Rank], page: &mut S) -> bool
    requires { (first + length cells.now ≤ max_lines) × (line_width * (first + length cells.now) ≤ length lines.now) }
{
    let mixed = unfinished(cells, place, page);
    path(b's', Rank::Same, cells, place, usize::MAX, page);
    path(b'o', Rank::Other, cells, place, usize::MAX, page);
    labels(lines, first, place, cells, page);
    label::number(place, page);
    mixed
}

pub fn draw<W: fmt::Write>(
    lines: &[u8],
    first: u16,
    place: u16,
    cells: &[Rank],
    page: &mut W,
) -> Result<bool, fmt::Error>
    requires { (first + length cells.now ≤ max_lines) × (line_width * (first + length cells.now) ≤ length lines.now) }
{
    let mut written = Written::new(page);
    let mixed = draw_on(lines, first, place, cells, &mut written);
    written.result?;
    Ok(mixed)
}
