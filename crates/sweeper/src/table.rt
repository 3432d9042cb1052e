// The sweep of a hardened table. The unstruck run is tried first, so that nothing is written where it does not finish.
ghost use Rattle.std.specs.Prelude.{◌≡◌, true, ◌≤◌, eqb, length};
ghost use Rattle.rules.specs.Limits.{counter_words};
ghost use Rattle.rules.specs.ReadBack.{is_hardened_lem};
ghost use Rattle.sweeper.specs.Table.{is_finish_lem, outcome_in, traced, traced_of, PreparedBy, AnsweredBy, swept_with, swept_of, asked_with, asked_of};

use crate::steps::{Counting, Searching};
use crate::unstruck::Unstruck;
use crate::walk::{Asked, walk};
use compare::pieces;
use compare::spare::Spare;
use guard::counters;
use machine::run::run_lines;
use machine::table::Runnable;
use rules::ending::{Counts, Ending};
use rules::limits::VARIABLES;
use state::machine::begun;

fn is_finish(e: Ending) -> bool
    ensures { result ≡ is_finish_lem e }
{
    matches!(e, Ending::Same | Ending::Other)
}

// Whether the unstruck run finishes in the budget. It is made with the spare counters, and no slot is written.
fn finishes(table: &Runnable, variables: [u16; VARIABLES], budget: u16, spare: &mut Spare) -> bool
    ensures { result ≡ eqb (outcome_in table.now.lines.now variables budget) 1 }
{
    counters::fresh(&mut spare.counters, 0, 1);
    let start = begun(0, variables);
    let e = pieces::ending(table, start, budget, &[], spare);
    is_finish(e)
}

// The unstruck run, its trace recorded: how long that is.
fn record_trace(
    table: &Runnable,
    variables: [u16; VARIABLES],
    budget: u16,
    trace: &mut [u16],
    words: &mut [u16],
) -> u16
    requires { (budget ≤ length trace.old) × (length words.old ≡ counter_words) }
    ensures { traced result trace.new ≡ traced_of table.now.lines.now variables budget trace.old }
{
    counters::fresh(words, 0, 1);
    let start = begun(0, variables);
    let x = run_lines(table, start, budget, words, trace);
    let h = x.machine.registers;
    h.traced
}

// How long the trace of the unstruck run is, where that finishes: it is in the slots then.
pub fn prepare(
    table: &Runnable,
    variables: [u16; VARIABLES],
    budget: u16,
    trace: &mut [u16],
    words: &mut [u16],
    spare: &mut Spare,
) -> Option<u16>
    requires { (budget ≤ length trace.old) × (length words.old ≡ counter_words) }
    ensures { PreparedBy table.now.lines.now variables budget trace.old words.old trace.new words.new result }
{
    if finishes(table, variables, budget, spare) {
        let n = record_trace(table, variables, budget, trace, words);
        return Some(n);
    }
    None
}

// What is asked, answered over all steps; nothing where the run does not finish. The words are 0 where it does.
fn answer<A: Asked + Drop>(
    lines: &[u8],
    variables: [u16; VARIABLES],
    budget: u16,
    trace: &mut [u16],
    words: &mut [u16],
    mut asked: A,
) -> Option<A>
    requires room { (is_hardened_lem lines.now ≡ true) × (budget ≤ length trace.old) × (length words.old ≡ counter_words) }
    requires held { A.struck lines.now variables budget 0 asked }
    ensures { AnsweredBy (A.struck lines.now variables budget) lines.now variables budget trace.old words.old trace.new words.new result }
{
    let table = Runnable::of(lines);
    let mut spare = Spare::new();
    let n = prepare(&table, variables, budget, trace, words, &mut spare)?;
    let run = Unstruck {
        table: &table,
        variables,
        budget,
        trace: &trace[..n as usize],
    };
    walk(&run, words, &mut spare, &mut asked);
    counters::clear(words);
    Some(asked)
}

// The four counts; none where the run does not finish. The words are 0 where it does.
pub fn sweep(
    lines: &[u8],
    variables: [u16; VARIABLES],
    budget: u16,
    trace: &mut [u16],
    words: &mut [u16],
) -> Option<Counts>
    requires { (is_hardened_lem lines.now ≡ true) × (budget ≤ length trace.old) × (length words.old ≡ counter_words) }
    ensures { swept_with result trace.new words.new ≡ swept_of lines.now variables budget trace.old words.old }
{
    let counting = Counting {
        counts: Counts::default(),
    };
    let x = answer(lines, variables, budget, trace, words, counting)?;
    Some(x.counts)
}

// Whether the third count is above 0; no answer where the run does not finish.
pub fn sweep_other(
    lines: &[u8],
    variables: [u16; VARIABLES],
    budget: u16,
    trace: &mut [u16],
    words: &mut [u16],
) -> Option<bool>
    requires { (is_hardened_lem lines.now ≡ true) × (budget ≤ length trace.old) × (length words.old ≡ counter_words) }
    ensures { asked_with result trace.new words.new ≡ asked_of lines.now variables budget trace.old words.old }
{
    let searching = Searching { found: false };
    let x = answer(lines, variables, budget, trace, words, searching)?;
    Some(x.found)
}
