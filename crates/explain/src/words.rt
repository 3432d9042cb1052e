// What is wrong, in the words of 01, "What turns a call away", and of 02, No. 1.
use crate::row::Row;
use crate::{fields, row};
use console::page::Page;
use rows::WIDTH;
use rows::kind::{BREAK, CASE, CONTINUE, DEFAULT, ELSE, FUNCTION, IF, LOOP, SWITCH};
use rules::answer::Fault;
use rules::limits::{CONSTRUCTS, ROWS};

// The number is 01's: the C struct has it so. Whole lines make whole rows, so that there are none is the one way to meet 1. At the end
// of the table there is no row.
pub fn put<P: Print>(f: Fault, rows: &[u8], page: &mut Page<P>) {
    match (f.number, row::at(rows, f.row)) {
        (1, _) => page.word(b"no rows"),
        (2, _) => page.word(too_long(rows.len() / WIDTH).as_bytes()),
        (3, Some(r)) => wrong(r, page),
        (4, Some(r)) => page.word(misplaced(r.kind, row::inner(rows, f.row)).as_bytes()),
        (4, None) => page.word(b"something is left open at the end"),
        (5, _) => page.word(b"a 33rd function"),
        (6, Some(r)) => page.word(too_many(r.kind, row::open_at(rows, f.row)).as_bytes()),
        (11, Some(r)) => repeated(r.n, page),
        _ => page.word(b"call of a function that isn't there"),
    }
}

// So many rows are given.
fn too_long(given: usize) -> &'static str {
    if ROWS < given {
        return "over 1,024 rows";
    }
    "over 1,024 rows, with its switches written as ifs"
}

fn wrong<P: Print>(r: Row, page: &mut Page<P>) {
    match r.kind {
        FUNCTION..=DEFAULT => fields::put(r, page),
        _ => page.word(b"unknown kind"),
    }
}

fn repeated<P: Print>(number: u16, page: &mut Page<P>) {
    page.named(b"case ", number.into());
    page.word(b" is in this switch already");
}

// A row of this kind, straight in a part that a row of the kind `inner` opened.
fn misplaced(kind: u8, inner: Option<u8>) -> &'static str {
    match (kind, inner) {
        (CASE, Some(DEFAULT)) => "case after the default",
        (CASE, _) => "case not straight in a switch",
        (DEFAULT, Some(DEFAULT)) => "a second default",
        (DEFAULT, _) => "default not straight in a switch",
        (_, Some(SWITCH)) => "a row before the first case or default",
        (FUNCTION, _) => "a function in a function",
        (ELSE, Some(CASE | DEFAULT)) => "else straight in a case or a default",
        (ELSE, _) => "else without an open then part",
        (BREAK, _) => "break outside a loop",
        (CONTINUE, _) => "continue outside a loop",
        _ => "outside a function",
    }
}

// An else or a default opens a region and no if; the function itself is open too.
fn too_many(kind: u8, open: usize) -> &'static str {
    match kind {
        IF | LOOP if CONSTRUCTS < open => "a 17th open if or loop",
        CASE if CONSTRUCTS < open => "a 17th open if or loop, each case being one",
        _ => "a 65th region",
    }
}
