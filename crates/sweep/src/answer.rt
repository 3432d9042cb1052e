// What is printed for a table that is swept: the counts, with the list before them, or the map in their place.
ghost use Rattle.std.specs.Prelude.{◌≡◌, true, ◌≤◌, length};
ghost use Rattle.rules.specs.Limits.{counter_words};
ghost use Rattle.rules.specs.ReadBack.{is_hardened_lem};

use crate::{list, map};
use command::sweep_words::{Form, SweepAsked};
use compare::spare::Spare;
use console::page::Page;
use machine::table::Runnable;
use rules::answer::Swept;
use rules::limits::COUNTERS;
use sweeper::table;
use sweeper::unstruck::Unstruck;

// By named, whose promise holds where output is lost too.
fn tell<P: Print>(r: Swept, page: &mut Page<P>) {
    page.named(b"alarm ", r.alarms.into());
    page.named(b"\nsame ", r.same.into());
    page.named(b"\nother ", r.other.into());
    page.named(b"\nunfinished ", r.unfinished.into());
    page.put(b'\n');
}

// The list and the map go over the unstruck run once more: its trace, and where the functions are.
fn walk_again<P: Print>(
    a: SweepAsked,
    r: Swept,
    lines: &[u8],
    trace: &mut [u16],
    words: &mut [u16],
    page: &mut Page<P>,
)
    requires { (is_hardened_lem lines.now ≡ true) × (a.budget ≤ length trace.old) × (length words.old ≡ counter_words) }
{
    let variables = a.variables;
    let table = Runnable::of(lines);
    let mut spare = Spare::new();
    let Some(n) = table::prepare(&table, variables, a.budget, trace, words, &mut spare) else {
        return;
    };
    let run = Unstruck {
        table: &table,
        variables,
        budget: a.budget,
        trace: &trace[..n as usize],
    };
    if let Form::Map(function) = a.form {
        map::show(&run, function, r, words, &mut spare, page);
        return;
    }
    list::walk(&run, words, &mut spare, page);
    tell(r, page);
}

pub fn answer<P: Print>(
    a: SweepAsked,
    r: Swept,
    lines: &[u8],
    trace: &mut [u16; 65535],
    counters: &mut [u16; COUNTERS],
    page: &mut Page<P>,
) {
    if matches!(a.form, Form::Counts) {
        tell(r, page);
        return;
    }
    if reader::is_hardened(lines) {
        walk_again(a, r, lines, trace, counters, page);
    }
}
