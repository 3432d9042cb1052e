// The links of a table, in one place that is lent.
ghost use Rattle.std.specs.Prelude.{◌≡◌};
ghost use Rattle.rules.specs.Limits.{max_rows, max_functions};
ghost use Rattle.rules.specs.Calls.{zeros};

use rules::limits::{FUNCTIONS, ROWS};
use walk::link::RowLinks;

// Those of the rows, and by its number the row of each function.
#[derive(Drop)]
pub struct TableLinks {
    pub rows: RowLinks,
    pub heads: [u16; FUNCTIONS],
}

impl TableLinks {
    // Before a table is checked.
    pub fn new() -> TableLinks
        ensures ends { result.rows.ends ≡ zeros max_rows }
        ensures elses { result.rows.elses ≡ zeros max_rows }
        ensures heads { result.heads ≡ zeros max_functions }
    {
        TableLinks {
            rows: RowLinks {
                ends: [0; ROWS],
                elses: [0; ROWS],
            },
            heads: [0; FUNCTIONS],
        }
    }
}
