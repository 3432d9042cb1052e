// The pass over the rows as given: causes 3, 4, 11, 5 and 6 row by row, then the end of the table.
ghost use Rattle.std.specs.Prelude.{◌≡◌, ◌*◌, ◌≤◌, length};
ghost use Rattle.rules.specs.Limits.{max_rows};
ghost use Rattle.rules.specs.Row.{row_width};
ghost use Rattle.fault.specs.Found.{end_of, PassedOk};

use given::row::row;
use given::things::Things;
use rows::WIDTH;
use rules::limits::{CONSTRUCTS, ROWS};
use rules::refusal::Refusal;
use scan::open::Standing;

// Why a table is turned away, and the row that it is about: for the end of the table, the number of rows.
#[derive(Clone, Copy)]
pub struct TableFault {
    pub cause: Refusal,
    pub row: usize,
}

impl From<TableFault> for Refusal {
    ghost from_gives = { λ fault cause. cause ≡ fault.cause };

    fn from(fault: TableFault) -> Refusal {
        fault.cause
    }
}

// The functions and the rows of the chain, and the first row of the table with which they are over 1,024.
#[derive(Clone, Copy)]
pub struct Counted {
    pub functions: usize,
    pub rows: usize,
    pub long: usize,
}

// The end of the table, which is row `at`.
fn end(s: Standing, t: Things, at: usize) -> Result<Counted, TableFault>
    ensures { result ≡ end_of s t at }
{
    if t.count != 0 {
        return Err(TableFault {
            cause: Refusal::Misplaced,
            row: at,
        });
    }
    Ok(Counted {
        functions: s.count,
        rows: t.chained,
        long: t.long,
    })
}

pub fn rows(rows: &[u8], chain: &mut [u8]) -> Result<Counted, TableFault>
    requires { length rows.now ≤ row_width * max_rows }
    ensures { PassedOk rows.now chain.new result }
{
    // A function's body, and 16 ifs and loops in it; a byte and a variable for each open thing; the cases of all open switches.
    let mut parts = [0u8; CONSTRUCTS + 1];
    let mut marks = [0u8; ROWS];
    let mut vars = [0u8; ROWS];
    let mut used = [0u16; CONSTRUCTS + 1];
    // Nothing is open before row 0.
    let mut s = Standing::default();
    let mut t = Things::default();
    let count = rows.len() / WIDTH;
    for at in 0..count {
        match row(
            rows, at, s, t, &mut parts, &mut marks, &mut vars, &mut used, chain,
        ) {
            Err(cause) => return Err(TableFault { cause, row: at }),
            Ok((n, u)) => {
                s = n;
                t = u;
            }
        }
    }
    end(s, t, count)
}
