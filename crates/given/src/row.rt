// A row as given: why it is turned away, or what is open and what the chain is after it.
ghost use Rattle.std.specs.Prelude.{◌≡◌, ◌+◌, ◌*◌, ◌≤◌, ◌<◌, length, get_or, set};
ghost use Rattle.rules.specs.Limits.{max_rows, max_constructs};
ghost use Rattle.rules.specs.Row.{row_width};
ghost use Rattle.given.specs.Through.{many_rows};
ghost use Rattle.given.specs.Reached.{Reached, Here, Sound, var_by, own_row, rows_in_lem, grown, lengthened, RowOk};

use crate::causes::{case_cause, cause};
use crate::plan::{Plan, plan_of};
use crate::sort::{Sort, is_case, is_switch, sort_of};
use crate::span::{case_spans, spans, store};
use crate::things::{Things, innermost, long_row};
use rows::WIDTH;
use rows::first::fits;
use rows::kind::{CASE, DO, IF};
use rows::row::Row;
use rules::bytes::word;
use rules::kind::Kind;
use rules::limits::{CONSTRUCTS, ROWS};
use rules::refusal::Refusal;
use scan::open::{Standing, plain};

// What is open after a row, and what the chain is. A pair, and no struct of its own: the definitions take it apart as they match.
pub type Open = (Standing, Things);

// The variable of the switch that the row opens, or of the innermost thing.
fn variable(sort: Sort, p: u8, vars: &[u8; ROWS], count: usize) -> u8
    requires { count ≤ max_rows }
    ensures { result ≡ var_by sort p vars.now count }
{
    if is_switch(sort) {
        return p;
    }
    innermost(vars, count)
}

// The if of a case, or the row itself.
fn own_row(sort: Sort, var: u8, row: &[u8]) -> Row
    requires { 5 < length row.now }
    ensures { result ≡ own_row sort var row.now }
{
    if is_case(sort) {
        return Row::test(IF, var, row[4], row[5]);
    }
    Row::read(row)
}

fn things_after(t: Things, p: Plan, at: usize) -> Things
    requires { t.chained + rows_in_lem p ≤ many_rows }
    ensures { result ≡ grown t p at }
{
    let chained = t.chained + (p.elses + (p.own + p.ends));
    Things {
        count: p.count,
        cases: p.cases,
        chained,
        long: long_row(t.chained, chained, t.long, at),
    }
}

// A row that meets none of 3, 4 and 11: the rows that it stands for, and what is open after it.
fn take(
    rows: &[u8],
    at: usize,
    sort: Sort,
    top: u8,
    number: u16,
    s: Standing,
    t: Things,
    parts: &mut [u8],
    marks: &mut [u8; ROWS],
    vars: &mut [u8; ROWS],
    used: &mut [u16; CONSTRUCTS + 1],
    chain: &mut [u8],
) -> Result<Open, Refusal>
    requires here { Here rows.now at }
    requires reached { Reached rows.now at s parts.old t marks.old vars.old used.old chain.old }
    requires sound { Sound rows.now at t marks.old used.old sort top number }
    ensures { RowOk rows.now at parts.new marks.new vars.new used.new chain.new result }
{
    let from = WIDTH * at;
    let var = variable(sort, rows[from + 2], vars, t.count);
    let p = plan_of(sort, top, t.count, t.cases);
    let row = own_row(sort, var, &rows[from..]);
    let parts_after = spans(p, row, s, parts, t.chained, chain)?;
    marks[p.slot] = p.mark;
    vars[p.slot] = var;
    used[t.cases] = number;
    Ok((parts_after, things_after(t, p, at)))
}

// A row that is no do and no case: those have a path of their own, for speed (docs/SPEED.md).
fn other_row(
    rows: &[u8],
    at: usize,
    s: Standing,
    t: Things,
    parts: &mut [u8],
    marks: &mut [u8; ROWS],
    vars: &mut [u8; ROWS],
    used: &mut [u16; CONSTRUCTS + 1],
    chain: &mut [u8],
) -> Result<Open, Refusal>
    requires here { Here rows.now at }
    requires reached { Reached rows.now at s parts.old t marks.old vars.old used.old chain.old }
    ensures { RowOk rows.now at parts.new marks.new vars.new used.new chain.new result }
{
    let from = WIDTH * at;
    let sort = sort_of(&rows[from..]);
    let top = innermost(marks, t.count);
    let number = word(rows, from + 4);
    cause(sort, number, top, t.count, t.cases, used)?;
    take(
        rows, at, sort, top, number, s, t, parts, marks, vars, used, chain,
    )
}

// Another row of the chain, by row `at`; nothing opens or closes.
fn one_more(t: Things, at: usize) -> Things
    requires { t.chained < many_rows }
    ensures { result ≡ lengthened t at }
{
    let chained = t.chained + 1;
    Things {
        chained,
        long: long_row(t.chained, chained, t.long, at),
        ..t
    }
}

// Row `at`, a do: it stands for itself, and what is open stays.
fn do_row(
    rows: &[u8],
    at: usize,
    s: Standing,
    t: Things,
    parts: &[u8],
    marks: &[u8; ROWS],
    vars: &[u8; ROWS],
    used: &[u16; CONSTRUCTS + 1],
    chain: &mut [u8],
) -> Result<Open, Refusal>
    requires here { Here rows.now at }
    requires reached { Reached rows.now at s parts.now t marks.now vars.now used.now chain.old }
    requires at_value { get_or rows.now (row_width * at) 0 ≡ 0x02 }
    ensures { RowOk rows.now at parts.now marks.now vars.now used.now chain.new result }
{
    let from = WIDTH * at;
    if !fits(Kind::Do, &rows[from..]) {
        return Err(Refusal::WrongField);
    }
    if innermost(marks, t.count) == 1 {
        return Err(Refusal::Misplaced);
    }
    let parts_after = plain(s)?;
    store(Row::read(&rows[from..]), t.chained, chain);
    Ok((parts_after, one_more(t, at)))
}

// A case that meets none of 3, 4 and 11, as `take` does. Kept beside it: a path of its own for a do and one for a case took a row from 11
// to 7 ns (docs/SPEED.md, what made the pass fast).
fn take_case(
    rows: &[u8],
    at: usize,
    top: u8,
    number: u16,
    s: Standing,
    t: Things,
    parts: &mut [u8],
    marks: &mut [u8; ROWS],
    vars: &mut [u8; ROWS],
    used: &mut [u16; CONSTRUCTS + 1],
    chain: &mut [u8],
) -> Result<Open, Refusal>
    requires here { Here rows.now at }
    requires reached { Reached rows.now at s parts.old t marks.old vars.old used.old chain.old }
    requires sound { Sound rows.now at t marks.old used.old Sort.Case top number }
    ensures { RowOk rows.now at parts.new marks.new vars.new used.new chain.new result }
{
    let from = WIDTH * at;
    let var = innermost(vars, t.count);
    let p = plan_of(Sort::Case, top, t.count, t.cases);
    let row = own_row(Sort::Case, var, &rows[from..]);
    let parts_after = case_spans(p, row, s, parts, t.chained, chain)?;
    marks[p.slot] = p.mark;
    vars[p.slot] = var;
    used[t.cases] = number;
    Ok((parts_after, things_after(t, p, at)))
}

// Row `at`, a case. Kept beside `other_row`: a case has a path of its own, for speed (docs/SPEED.md).
fn case_row(
    rows: &[u8],
    at: usize,
    s: Standing,
    t: Things,
    parts: &mut [u8],
    marks: &mut [u8; ROWS],
    vars: &mut [u8; ROWS],
    used: &mut [u16; CONSTRUCTS + 1],
    chain: &mut [u8],
) -> Result<Open, Refusal>
    requires here { Here rows.now at }
    requires reached { Reached rows.now at s parts.old t marks.old vars.old used.old chain.old }
    requires at_value { get_or rows.now (row_width * at) 0 ≡ 0x0b }
    ensures { RowOk rows.now at parts.new marks.new vars.new used.new chain.new result }
{
    let from = WIDTH * at;
    if !fits(Kind::Call, &rows[from..]) {
        return Err(Refusal::WrongField);
    }
    let top = innermost(marks, t.count);
    let number = word(rows, from + 4);
    case_cause(number, top, t.cases, used)?;
    take_case(rows, at, top, number, s, t, parts, marks, vars, used, chain)
}

// Row `at`. The buffers are kept one by one: with one struct of the four, lent, all proved, but 1,024 rows of dos took 6.0 for 4.6 µs, and
// 512 of cases and dos 5.3 for 4.4.
pub fn row(
    rows: &[u8],
    at: usize,
    s: Standing,
    t: Things,
    parts: &mut [u8],
    marks: &mut [u8; ROWS],
    vars: &mut [u8; ROWS],
    used: &mut [u16; CONSTRUCTS + 1],
    chain: &mut [u8],
) -> Result<Open, Refusal>
    requires here { Here rows.now at }
    requires reached { Reached rows.now at s parts.old t marks.old vars.old used.old chain.old }
    ensures { RowOk rows.now at parts.new marks.new vars.new used.new chain.new result }
{
    let first = rows[WIDTH * at];
    if first == CASE {
        return case_row(rows, at, s, t, parts, marks, vars, used, chain);
    }
    if first == DO {
        return do_row(rows, at, s, t, parts, marks, vars, used, chain);
    }
    other_row(rows, at, s, t, parts, marks, vars, used, chain)
}
