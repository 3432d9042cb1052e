// Checking a whole table: tests 1 and 2, its functions one after the other, the end of the table, and its calls.
ghost use Rattle.std.specs.Prelude.{◌≡◌, ◌+◌, ◌*◌, ◌≤◌, ◌<◌, length};
ghost use Rattle.rules.specs.Limits.{max_rows, max_functions};
ghost use Rattle.rules.specs.Row.{row_width, table_of};
ghost use Rattle.rules.specs.Scan.{function_count};
ghost use Rattle.rules.specs.Check.{calls_verdict};
ghost use Rattle.rules.specs.Links.{Checked};
ghost use Rattle.rows.specs.First.{first_kind_lem};
ghost use Rattle.table.specs.Checking.{stray_cause, OneOk, AllOk};

use crate::links::TableLinks;
use rows::first::{calls_beyond, first_kind};
use rows::{LAST, WIDTH};
use rules::kind::Kind;
use rules::limits::{FUNCTIONS, ROWS};
use rules::refusal::Refusal;
use walk::answer::Seq;
use walk::link::{RowLinks, link};
use walk::parts::sequence;

// Why a row outside of every function that opens none is turned away.
fn stray(kind: Kind) -> Refusal
    ensures { result ≡ stray_cause kind }
{
    match kind {
        Kind::Unknown => Refusal::WrongField,
        _ => Refusal::Misplaced,
    }
}

// The rows of the function that row `base` opens, where `count` were opened before.
fn body(
    rows: &[u8],
    base: usize,
    count: usize,
    links: &mut RowLinks,
    heads: &mut [u16; FUNCTIONS],
) -> Result<usize, Refusal>
    requires rows_bound { row_width * base + length rows.now ≤ row_width * max_rows }
    requires in_bounds { (5 < length rows.now) × (first_kind_lem rows.now ≡ Kind.Function) }
    ensures { OneOk rows.now base count links.old.ends links.old.elses heads.old links.new.ends links.new.elses heads.new result }
{
    if count >= FUNCTIONS {
        return Err(Refusal::TooManyFunctions);
    }
    link(heads, count, base);
    let ended = sequence(&rows[WIDTH..], base + 1, 0, 1, false, links)?;
    match ended {
        Seq::AtElse(_, _) => Err(Refusal::Misplaced),
        Seq::AtEnd(n, _) => {
            link(&mut links.ends, base, base + 1 + n);
            Ok(n + 2)
        }
    }
}

// The rows of the function that row `base`, outside of every function, opens.
fn function(
    rows: &[u8],
    base: usize,
    count: usize,
    links: &mut RowLinks,
    heads: &mut [u16; FUNCTIONS],
) -> Result<usize, Refusal>
    requires rows_bound { row_width * base + length rows.now ≤ row_width * max_rows }
    requires in_bounds { 5 < length rows.now }
    ensures { OneOk rows.now base count links.old.ends links.old.elses heads.old links.new.ends links.new.elses heads.new result }
{
    match first_kind(rows) {
        Kind::Function => body(rows, base, count, links, heads),
        other => Err(stray(other)),
    }
}

// The functions of the table, one after the other: how many there are.
fn functions(
    rows: &[u8],
    links: &mut RowLinks,
    heads: &mut [u16; FUNCTIONS],
) -> Result<usize, Refusal>
    requires rows_len_bound { length rows.now ≤ row_width * max_rows }
    ensures { AllOk rows.now links.new.ends links.new.elses heads.new result }
{
    // The proof wants the words to be as many as rows may be; an array behind a `&mut` tells its length only as a slice.
    let (ends, elses): (&[u16], &[u16]) = (&links.ends, &links.elses);
    prove!(ends.len() == ROWS);
    prove!(elses.len() == ROWS);
    // Kept as a `while`: a function is as many rows long as `function` tells, so no iterator's step is known before.
    let mut at = 0;
    let mut count = 0;
    while WIDTH * at + LAST < rows.len() {
        let from = WIDTH * at;
        let long = function(&rows[from..], at, count, links, heads)?;
        at += long;
        count += 1;
    }
    Ok(count)
}

// The calls of a table with `count` functions.
fn calls(rows: &[u8], count: usize) -> Result<(), Refusal>
    requires { count ≡ function_count (table_of rows.now) }
    ensures { result ≡ calls_verdict (table_of rows.now) (length (table_of rows.now)) }
{
    for at in 0..rows.len() / WIDTH {
        let from = WIDTH * at;
        if calls_beyond(&rows[from..], count) {
            return Err(Refusal::NoSuchFunction);
        }
    }
    Ok(())
}

// The verdict of the bytes as a source table, and where it is accepted its links.
pub fn check(rows: &[u8], links: &mut TableLinks) -> Result<(), Refusal>
    ensures { Checked rows.now result links.new.rows.ends links.new.rows.elses links.new.heads }
{
    if rows.len() == 0 {
        return Err(Refusal::NoWholeRows);
    }
    if rows.len() % WIDTH != 0 {
        return Err(Refusal::NoWholeRows);
    }
    if rows.len() / WIDTH > ROWS {
        return Err(Refusal::TooManyRows);
    }
    let count = functions(rows, &mut links.rows, &mut links.heads)?;
    calls(rows, count)
}
