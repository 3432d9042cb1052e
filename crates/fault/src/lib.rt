// What a source table gets: the number and the row that it is about, or its chain.
#![tactic(auto)]

ghost use Rattle.std.specs.Prelude.{◌≡◌};
ghost use Rattle.rules.specs.Switch.{given_of};
ghost use Rattle.rules.specs.Fault.{calling_row};
ghost use Rattle.fault.specs.Found.{last_of, FoundOk};

pub mod pass;

use pass::TableFault;
use rows::WIDTH;
use rows::first::calls_beyond;
use rules::limits::ROWS;
use rules::refusal::Refusal;

// The first row that calls a function beyond `count`; the number of rows where none does.
fn calling(rows: &[u8], count: usize) -> usize
    ensures { result ≡ calling_row (given_of rows.now) count }
{
    let end = rows.len() / WIDTH;
    for at in 0..end {
        let from = WIDTH * at;
        if calls_beyond(&rows[from..], count) {
            return at;
        }
    }
    end
}

// The last causes: a chain of over 1,024 rows, and a call, in row `at` of so many, of a function that isn't there.
fn last(chained: usize, long: usize, at: usize, count: usize) -> Result<usize, TableFault>
    ensures { result ≡ last_of chained long at count }
{
    if chained > ROWS {
        return Err(TableFault {
            cause: Refusal::TooManyRows,
            row: long,
        });
    }
    if at < count {
        return Err(TableFault {
            cause: Refusal::NoSuchFunction,
            row: at,
        });
    }
    Ok(chained)
}

// How many rows the chain has. One pass over the rows and one over the calls. An accepted table's chain stands at the front of `chain` afterwards, where it fits there.
pub fn find(rows: &[u8], chain: &mut [u8]) -> Result<usize, TableFault>
    ensures { FoundOk rows.now chain.new result }
{
    if rows.len() == 0 {
        return Err(TableFault {
            cause: Refusal::NoWholeRows,
            row: 0,
        });
    }
    if rows.len() % WIDTH != 0 {
        return Err(TableFault {
            cause: Refusal::NoWholeRows,
            row: rows.len() / WIDTH,
        });
    }
    if rows.len() / WIDTH > ROWS {
        return Err(TableFault {
            cause: Refusal::TooManyRows,
            row: ROWS,
        });
    }
    let counted = pass::rows(rows, chain)?;
    let at = calling(rows, counted.functions);
    last(counted.rows, counted.long, at, rows.len() / WIDTH)
}
