// Runs of tables that are checked: test 9, and what a refused run gives back.
ghost use Rattle.std.specs.Prelude.{◌≡◌, true};
ghost use Rattle.rules.specs.Verdict.{Accepted};
ghost use Rattle.rules.specs.Row.{table_of};
ghost use Rattle.rules.specs.Check.{verdict_of};
ghost use Rattle.rules.specs.ReadBack.{is_hardened_lem};
ghost use Rattle.rules.specs.Links.{Links};
ghost use Rattle.rules.specs.Calls.{run_hardened_call};
ghost use Rattle.finuraho.specs.Given.{refused_run_with, runs, source_runs, hardened_runs};

use rules::answer::Ran;
use rules::limits::{COUNTERS, FUNCTIONS, ROWS, VARIABLES};
use rules::refusal::Refusal;
use rules::strike::strike_by;

// "Returned: number, zeros, variables as given."
pub fn refused(r: Refusal, variables: [u16; VARIABLES]) -> Ran
    ensures { result ≡ refused_run_with r variables }
{
    Ran {
        number: u8::from(r),
        outcome: 0,
        steps: 0,
        traced: 0,
        variables,
    }
}

// Runs an accepted table whose links are known.
pub fn source_run(
    rows: &[u8],
    ends: &[u16; ROWS],
    elses: &[u16; ROWS],
    heads: &[u16; FUNCTIONS],
    variables: [u16; VARIABLES],
    budget: u16,
    trace: &mut [u16],
) -> Ran
    requires rows_value { verdict_of rows.now ≡ Accepted }
    requires links { Links (table_of rows.now) ends.now elses.now heads.now }
    ensures { runs result trace.new ≡ source_runs rows.now variables budget trace.old }
{
    if trace.len() < budget as usize {
        return refused(Refusal::ShortRoom, variables);
    }
    source::run_linked(rows, ends, elses, heads, variables, budget, trace)
}

// Runs a hardened table.
pub fn hardened_run(
    lines: &[u8],
    variables: [u16; VARIABLES],
    budget: u16,
    step: u16,
    place: u16,
    trace: &mut [u16],
    counters: &mut [u16],
) -> Ran
    requires { is_hardened_lem lines.now ≡ true }
    ensures { hardened_runs result trace.new counters.new ≡ run_hardened_call lines.now variables budget step place trace.old counters.old }
{
    let slots = trace.len();
    let words = counters.len();
    if slots < budget as usize {
        return refused(Refusal::ShortRoom, variables);
    }
    if words < COUNTERS {
        return refused(Refusal::ShortRoom, variables);
    }
    let by = strike_by(step, place);
    strike::table::run_table(lines, variables, budget, by, trace, counters)
}
