// A whole run of a hardened table, from line 0 of function 0 to wherever it stops.
ghost use Rattle.std.specs.Prelude.{◌≡◌, true, ◌≤◌, length};
ghost use Rattle.rules.specs.ReadBack.{is_hardened_lem};
ghost use Rattle.rules.specs.Limits.{counter_words};
ghost use Rattle.rules.specs.Calls.{zeros, counters_after};
ghost use Rattle.rules.specs.Verdict.{Accepted};
ghost use Rattle.strike.specs.Struck.{ran_with, accepted_run};

use crate::struck;
use guard::counters;
use machine::table::Runnable;
use rules::answer::Ran;
use rules::limits::{COUNTERS, VARIABLES};
use rules::strike::Jump;
use state::answer::answer;
use state::machine::begun;

// The words of functions that open later are set as they open; all are 0 when the run is over.
fn run_mapped(
    table: &Runnable,
    variables: [u16; VARIABLES],
    budget: u16,
    strike: Option<Jump>,
    trace: &mut [u16],
    words: &mut [u16],
) -> Ran
    requires { (budget ≤ length trace.old) × (length words.old ≡ counter_words) }
    ensures { ran_with result trace.new words.new ≡ accepted_run table.now.lines.now variables budget strike trace.old (zeros counter_words) }
{
    counters::fresh(words, 0, 1);
    let start = begun(0, variables);
    let x = struck::strike(table, start, budget, strike, words, trace);
    counters::clear(words);
    answer(x)
}

// Runs a hardened table. The counter words that it uses are 0 afterwards. Slots and counters are lent one by one, as C lends them.
pub fn run_table(
    lines: &[u8],
    variables: [u16; VARIABLES],
    budget: u16,
    strike: Option<Jump>,
    trace: &mut [u16],
    counters: &mut [u16],
) -> Ran
    requires lines_value { is_hardened_lem lines.now ≡ true }
    requires budget_in_bounds { (budget ≤ length trace.old) × (counter_words ≤ length counters.old) }
    ensures { ran_with result trace.new counters.new ≡ accepted_run lines.now variables budget strike trace.old (counters_after Accepted counters.old) }
{
    let table = Runnable::of(lines);
    run_mapped(
        &table,
        variables,
        budget,
        strike,
        trace,
        &mut counters[..COUNTERS],
    )
}
