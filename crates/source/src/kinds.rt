// What a row of each kind does.
ghost use Rattle.std.specs.Prelude.{◌≡◌, suc, ◌+◌, ◌<◌};
ghost use Rattle.rules.specs.Limits.{max_rows, max_open};
ghost use Rattle.rules.specs.Row.{table_of};
ghost use Rattle.state.specs.Machine.{HasSlot, done};
ghost use Rattle.state.specs.Open.{opened};
ghost use Rattle.source.specs.Goes.{code_of};
ghost use Rattle.source.specs.Step.{goes_to_lem, Standing, after_do_lem, after_test, after_jump, after_return, after_end, after_call};

use crate::table::{Runnable, fields};
use layout::row;
use rules::limits::{DEEPEST, OPEN, VARIABLES};
use rules::step::Step;
use state::machine::{Moved, Registers, standing, stay};
use state::open::{opening, returning};
use state::{trace, variables};

// The run goes on at row k.
fn to_row(k: u16, h: Registers) -> Moved
    ensures { result ≡ goes_to_lem h k }
{
    stay(Step::Went(k), standing(h, k, h.steps))
}

// The run goes on at the next row.
pub fn next_row(h: Registers) -> Moved
    requires { h.at < max_rows }
    ensures { result ≡ goes_to_lem h (suc h.at) }
{
    to_row(h.at + 1, h)
}

// The row is done, and goes into the trace; one that overflows ends the run.
pub fn do_row(
    op: u8,
    rows: &[u8],
    h: Registers,
    variables: &mut [u16; VARIABLES],
    trace: &mut [u16],
) -> Moved
    requires { (Standing rows.now h) × (code_of (table_of rows.now) h.at ≡ op + 1) × (op < 4) × (HasSlot h trace.old) }
    ensures { done result variables.new trace.new ≡ after_do_lem (table_of rows.now) h variables.old trace.old }
{
    trace::act(fields(rows, h, op), h.at, h, variables, trace)
}

// An if or a loop: into its part where the test holds.
pub fn test_row(op: u8, table: Runnable, h: Registers, variables: &[u16; VARIABLES]) -> Moved
    requires { (Standing table.rows.now h) × (code_of (table_of table.rows.now) h.at ≡ op + 5) × (op < 3) }
    ensures { result ≡ after_test (table_of table.entry.rows.now) h variables.now }
{
    if variables::holds(table.fields(h, op), variables) {
        return next_row(h);
    }
    to_row(table.go_of(h), h)
}

// An else, a break or a continue.
pub fn jump_row(table: Runnable, h: Registers) -> Moved
    requires { Standing table.rows.now h }
    ensures { result ≡ after_jump (table_of table.entry.rows.now) h }
{
    to_row(table.go_of(h), h)
}

// The running function returns to the one that waited last, or the run is finished.
fn returned(h: Registers, resumes: &[u16; OPEN], functions: &[u8; OPEN]) -> Moved
    requires { h.depth < max_open }
    ensures { result ≡ after_return h resumes.now functions.now }
{
    if 0 < h.depth {
        return returning(h, 0, resumes, functions);
    }
    stay(Step::Finished, standing(h, h.at, h.steps))
}

// The end of a function, of a loop, or of an if.
pub fn end_row(
    table: Runnable,
    h: Registers,
    resumes: &[u16; OPEN],
    functions: &[u8; OPEN],
) -> Moved
    requires { (Standing table.rows.now h) × (h.depth < max_open) }
    ensures { result ≡ after_end (table_of table.entry.rows.now) h resumes.now functions.now }
{
    let k = table.go_of(h);
    if k == 0 {
        return returned(h, resumes, functions);
    }
    to_row(k, h)
}

// The running function waits at the next row, and the callee opens; the call that is one too many is not made.
pub fn call_row(
    table: Runnable,
    h: Registers,
    resumes: &mut [u16; OPEN],
    functions: &mut [u8; OPEN],
) -> Moved
    requires standing { Standing table.rows.now h }
    requires at_value { (code_of (table_of table.rows.now) h.at ≡ 10) × (h.depth < max_open) }
    ensures { opened result resumes.new functions.new ≡ after_call (table_of table.entry.rows.now) h resumes.old functions.old }
{
    if DEEPEST <= h.depth + 1 {
        return stay(Step::TooManyOpen(DEEPEST), standing(h, h.at, h.steps));
    }
    let o = row::operands_of(table.rows, usize::from(h.at));
    opening(h, o.n as u8, table.go_of(h), resumes, functions)
}
