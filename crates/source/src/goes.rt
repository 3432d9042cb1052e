// What each row does, and where it goes where that is not the next row. Both are looked up once, before a run, and kept in one word, so
// that a step of it takes one load and one jump.
ghost use Rattle.std.specs.Prelude.{◌≡◌, suc, ◌+◌, ◌*◌, ◌/◌, ◌<◌, length};
ghost use Rattle.rules.specs.declared.kind.Kind.{Kind};
ghost use Rattle.rules.specs.Verdict.{Accepted};
ghost use Rattle.rules.specs.Limits.{max_rows};
ghost use Rattle.rules.specs.Row.{table_of, kind_at, operands_at};
ghost use Rattle.rules.specs.Scan.{open_at, part_of, end_of};
ghost use Rattle.rules.specs.Check.{verdict_of};
ghost use Rattle.rules.specs.Links.{Links};
ghost use Rattle.rules.specs.Source.{false_row};
ghost use Rattle.layout.specs.Spot.{Inside, Opens};
ghost use Rattle.source.specs.Goes.{end_goes_lem, go_of_lem, code_of, Known};

use layout::linked::Linked;
use layout::scope::{MAP, Scope};
use layout::{row, scope};
use rules::kind::Kind;
use rules::limits::{FUNCTIONS, ROWS};

// Kept as numbers, for speed: each stands beside its place in one word, and a step tells what to do by a jump on it.

// What a row does: it goes on at the next row.
pub const NEXT: u16 = 0;

// A do, by its op.
pub const SET: u16 = 1;

pub const COPY: u16 = 2;

pub const ADD: u16 = 3;

pub const SUBTRACT: u16 = 4;

// The test of an if or a loop, by its op.
pub const EQUAL: u16 = 5;

pub const DIFFERS: u16 = 6;

pub const LESS: u16 = 7;

// An else, a break or a continue.
pub const GO: u16 = 8;

pub const END: u16 = 9;

pub const CALL: u16 = 10;

// Past the end of what row o opens.
fn past(table: &Linked, o: usize) -> u16
    requires { Opens table.now.rows.now o }
    ensures { result ≡ suc (end_of (table_of table.now.rows.now) o) }
{
    table.ends[o] + 1
}

// To the else part of the if in row i, or past its end where there is none.
fn if_go(table: &Linked, i: usize) -> u16
    requires { (i < length table.now.rows.now / 6) × (kind_at (table_of table.now.rows.now) i ≡ Kind.If) }
    ensures { result ≡ false_row (table_of table.now.rows.now) i }
{
    let x = table.elses[i];
    if x == 0 {
        return past(table, i);
    }
    x + 1
}

// To nowhere from the end of a function, to the test from the end of a loop, past the end of an if.
fn end_go(table: &Linked, i: usize) -> u16
    requires { Inside table.now.rows.now i }
    ensures { result ≡ end_goes_lem (table_of table.now.rows.now) i (part_of (open_at (table_of table.now.rows.now) i)) }
{
    if table.in_body(i) {
        return 0;
    }
    let o = table.opener_of(i);
    if table.is_loop(o) {
        return o as u16;
    }
    (i + 1) as u16
}

// The op of row i.
fn op_of(rows: &[u8], i: usize) -> u16
    requires { i < length rows.now / 6 }
    ensures { result ≡ (operands_at (table_of rows.now) i).op }
{
    let o = row::operands_of(rows, i);
    u16::from(o.op)
}

// What a row does and where it goes, in one word.
fn in_one(code: u16, go: u16) -> u16
    requires { (code < 16) × (go < 4096) }
    ensures { result ≡ 4096 * code + go }
{
    4096 * code + go
}

// The word of row i.
fn row_word(table: &Linked, i: usize) -> u16
    requires { i < length table.now.rows.now / 6 }
    ensures { result ≡ 4096 * code_of (table_of table.now.rows.now) i + go_of_lem (table_of table.now.rows.now) i }
{
    match row::kind(table.rows, i) {
        Kind::Function | Kind::Unknown => in_one(NEXT, 0),
        Kind::Do => in_one(op_of(table.rows, i) + SET, 0),
        Kind::If => in_one(op_of(table.rows, i) + EQUAL, if_go(table, i)),
        Kind::Else => in_one(GO, past(table, table.opener_of(i))),
        Kind::Loop => in_one(op_of(table.rows, i) + EQUAL, past(table, i)),
        Kind::End => in_one(END, end_go(table, i)),
        Kind::Break => in_one(GO, past(table, table.loop_of(i))),
        Kind::Continue => in_one(GO, table.loop_of(i) as u16),
        Kind::Call => in_one(CALL, (table.callee_of(i) + 1) as u16),
    }
}

// What every row does and where it goes, from the scopes of the rows and the links.
fn fill(table: &Linked, goes: &mut [u16; ROWS])
    requires { length goes.old ≡ max_rows }
    ensures { Known table.now.rows.now goes.new }
{
    let n = table.rows.len() / row::WIDTH;
    for i in 0..n {
        goes[i] = row_word(table, i);
    }
}

// The words of an accepted table.
pub fn find(
    rows: &[u8],
    ends: &[u16; ROWS],
    elses: &[u16; ROWS],
    heads: &[u16; FUNCTIONS],
    goes: &mut [u16; ROWS],
)
    requires rows_value { (verdict_of rows.now ≡ Accepted) × (Links (table_of rows.now) ends.now elses.now heads.now) }
    requires goes_len { length goes.old ≡ max_rows }
    ensures { Known rows.now goes.new }
{
    let mut map = [Scope::OUTERMOST; MAP];
    scope::survey(rows, &mut map);
    let table = Linked {
        rows,
        map: &map,
        ends,
        elses,
        heads,
    };
    fill(&table, goes);
}
