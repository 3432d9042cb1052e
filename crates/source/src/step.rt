// One step: a row. The registers go by value, the arrays are lent.
ghost use Rattle.std.specs.Prelude.{◌≡◌};
ghost use Rattle.rules.specs.Row.{table_of};
ghost use Rattle.source.specs.Step.{CanStep, parts_of, after, step_of};

use crate::table::Runnable;
use crate::{goes, kinds};
use rules::limits::{OPEN, VARIABLES};
use state::machine::{Moved, Registers};

// The loop is the one caller, so that this is compiled into it.
pub fn row(
    table: Runnable,
    h: Registers,
    resumes: &mut [u16; OPEN],
    functions: &mut [u8; OPEN],
    variables: &mut [u16; VARIABLES],
    trace: &mut [u16],
) -> Moved
    requires { CanStep table.rows.now h trace.old }
    ensures { after result resumes.new functions.new variables.new trace.new ≡ step_of (table_of table.entry.rows.now) (parts_of h resumes.old functions.old variables.old trace.old) }
{
    match table.code_of(h) {
        goes::NEXT => kinds::next_row(h),
        goes::SET => kinds::do_row(0, table.rows, h, variables, trace),
        goes::COPY => kinds::do_row(1, table.rows, h, variables, trace),
        goes::ADD => kinds::do_row(2, table.rows, h, variables, trace),
        goes::SUBTRACT => kinds::do_row(3, table.rows, h, variables, trace),
        goes::EQUAL => kinds::test_row(0, table, h, variables),
        goes::DIFFERS => kinds::test_row(1, table, h, variables),
        goes::LESS => kinds::test_row(2, table, h, variables),
        goes::GO => kinds::jump_row(table, h),
        goes::END => kinds::end_row(table, h, resumes, functions),
        goes::CALL => kinds::call_row(table, h, resumes, functions),
        _ => kinds::next_row(h),
    }
}
