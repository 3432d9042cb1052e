// Running an accepted source table whose links are known.
#![tactic(auto)]

ghost use Rattle.std.specs.Prelude.{◌≡◌, ◌≤◌, length};
ghost use Rattle.rules.specs.Verdict.{Accepted};
ghost use Rattle.rules.specs.Row.{table_of};
ghost use Rattle.rules.specs.Check.{verdict_of};
ghost use Rattle.rules.specs.Links.{Links};
ghost use Rattle.rules.specs.Source.{source_run};
ghost use Rattle.rules.specs.Calls.{running};
ghost use Rattle.source.specs.Run.{ran_with};

use crate::table::Runnable;
use rules::answer::Ran;
use rules::limits::{FUNCTIONS, ROWS, VARIABLES};
use state::answer::answer;
use state::machine::begun;

pub mod goes;
pub mod kinds;
pub mod run;
pub mod step;
pub mod table;

// Runs the table for at most as many steps as the budget, and puts the rows of its dos at the front of the trace.
pub fn run_linked(
    rows: &[u8],
    ends: &[u16; ROWS],
    elses: &[u16; ROWS],
    heads: &[u16; FUNCTIONS],
    variables: [u16; VARIABLES],
    budget: u16,
    trace: &mut [u16],
) -> Ran
    requires rows_value { verdict_of rows.now ≡ Accepted }
    requires links { Links (table_of rows.now) ends.now elses.now heads.now }
    requires budget_in_bounds { budget ≤ length trace.old }
    ensures { ran_with result trace.new ≡ running Accepted (source_run (table_of rows.now) budget variables) variables trace.old }
{
    let mut goes = [0u16; ROWS];
    goes::find(rows, ends, elses, heads, &mut goes);
    let table = Runnable { rows, goes: &goes };
    answer(run::run_rows(table, begun(1, variables), budget, trace))
}
