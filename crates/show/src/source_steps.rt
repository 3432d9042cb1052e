// A source run made step by step: its calls are counted, and where that is asked each step is listed before it is made. It comes to what
// the run comes to.
ghost use Rattle.std.specs.Prelude.{◌≡◌, ◌+◌, ◌≤◌, ◌<◌, length};
ghost use Rattle.rules.specs.Verdict.{Accepted};
ghost use Rattle.rules.specs.Row.{table_of};
ghost use Rattle.rules.specs.Check.{verdict_of};
ghost use Rattle.rules.specs.Links.{Links};
ghost use Rattle.rules.specs.Match.{calls_in};
ghost use Rattle.layout.specs.Spot.{Inside};
ghost use Rattle.source.specs.Run.{parts_in, stopped_with, Going};
ghost use Rattle.show.specs.Calls.{call_at, WalkedTo, CallsTold, spent_at};

use crate::line_writer::LineWriter;
use crate::{limit, row_text};
use chain::{SIZE, link};
use console::sheet::Sheet;
use layout::row;
use rows::kind::is_call;
use rules::limits::{FUNCTIONS, ROWS, VARIABLES};
use rules::step::Step;
use source::table::Runnable;
use source::{goes, run};
use state::machine::{Machine, Registers, Stopped, begun};
use std::fmt;
use table::links::TableLinks;

// Where a walk stopped, and the calls on its way.
#[derive(Drop)]
struct Walked {
    stopped: Stopped,
    calls: u16,
}

// The run goes on where a step can't be listed: what is lost the sheet knows.
fn list_step<S: Sheet>(rows: &[u8], h: Registers, show: bool, page: &mut S)
    requires { Inside rows.now h.at }
{
    if show {
        row_text::list(rows, h, page);
    }
}

fn list_end<S: Sheet>(s: Step, show: bool, page: &mut S) {
    if show {
        limit::list(s, page);
    }
}

// The calls once the step of this row is done.
fn with_row(rows: &[u8], h: Registers, calls: u16) -> u16
    requires { (Inside rows.now h.at) × (calls < 65535) }
    ensures { result ≡ calls + call_at (table_of rows.now) h.at }
{
    if is_call(row::kind(rows, usize::from(h.at))) {
        return calls + 1;
    }
    calls
}

fn spent(m: Machine) -> Stopped
    ensures { result ≡ spent_at m }
{
    let h = m.registers;
    Stopped {
        step: Step::Went(h.at),
        machine: m,
    }
}

fn walk<S: Sheet>(
    table: Runnable,
    start: Machine,
    budget: u16,
    trace: &mut [u16],
    show: bool,
    page: &mut S,
) -> Walked
    requires { Going table.rows.now budget (parts_in start trace.old) }
    ensures { WalkedTo (table_of table.entry.rows.now) budget (parts_in start trace.old) (stopped_with result.stopped trace.new) result.calls }
{
    let mut m = start;
    let mut calls = 0;
    for _step in 0..budget {
        let h = m.registers;
        list_step(table.rows, h, show, page);
        let made = with_row(table.rows, h, calls);
        let x = run::step(table, m, trace);
        let s = x.step;
        let Step::Went(_) = s else {
            return Walked { stopped: x, calls };
        };
        m = x.machine;
        calls = made;
    }
    Walked {
        stopped: spent(m),
        calls,
    }
}

// An accepted table's run.
fn tell_accepted<S: Sheet>(
    rows: &[u8],
    ends: &[u16; ROWS],
    elses: &[u16; ROWS],
    heads: &[u16; FUNCTIONS],
    variables: [u16; VARIABLES],
    budget: u16,
    show: bool,
    trace: &mut [u16],
    page: &mut S,
) -> u16
    requires rows_value { verdict_of rows.now ≡ Accepted }
    requires links { Links (table_of rows.now) ends.now elses.now heads.now }
    requires budget_in_bounds { budget ≤ length trace.old }
    ensures { result ≡ calls_in (table_of rows.now) budget variables }
{
    let mut goes = [0u16; ROWS];
    goes::find(rows, ends, elses, heads, &mut goes);
    let table = Runnable { rows, goes: &goes };
    let w = walk(table, begun(1, variables), budget, trace, show, page);
    let x = w.stopped;
    let s = x.step;
    list_end(s, show, page);
    w.calls
}

// A table with a switch, whose rows are those of its chain. Nothing is listed where the table is refused.
fn tell_switched<S: Sheet>(
    rows: &[u8],
    links: &mut TableLinks,
    variables: [u16; VARIABLES],
    budget: u16,
    show: bool,
    trace: &mut [u16],
    page: &mut S,
) -> u16
    requires { budget ≤ length trace.old }
    ensures { CallsTold rows.now budget variables page.old page.new result }
{
    let mut chain = [0u8; SIZE];
    match link(rows, &mut chain, links) {
        Err(_) => 0,
        Ok(n) => {
            tell_accepted(
                &chain[..n],
                &links.rows.ends,
                &links.rows.elses,
                &links.heads,
                variables,
                budget,
                show,
                trace,
                page,
            )
        }
    }
}

// How many calls the run makes.
pub fn tell_on<S: Sheet>(
    rows: &[u8],
    variables: [u16; VARIABLES],
    budget: u16,
    show: bool,
    trace: &mut [u16],
    page: &mut S,
) -> u16
    requires { budget ≤ length trace.old }
    ensures { CallsTold rows.now budget variables page.old page.new result }
{
    let mut links = TableLinks::new();
    match table::check::check(rows, &mut links) {
        Err(_) => tell_switched(rows, &mut links, variables, budget, show, trace, page),
        Ok(()) => tell_accepted(
            rows,
            &links.rows.ends,
            &links.rows.elses,
            &links.heads,
            variables,
            budget,
            show,
            trace,
            page,
        ),
    }
}

pub fn tell<W: fmt::Write>(
    rows: &[u8],
    variables: [u16; VARIABLES],
    budget: u16,
    show: bool,
    trace: &mut [u16],
    page: &mut W,
) -> u16
    requires { budget ≤ length trace.old }
    ensures { CallsTold rows.now budget variables page.old page.new result }
{
    let mut written = LineWriter::new(page);
    let calls = tell_on(rows, variables, budget, show, trace, &mut written);
    // No effect at run time: the proof reads what the writer holds from the reference that comes back.
    written.into_inner();
    calls
}
