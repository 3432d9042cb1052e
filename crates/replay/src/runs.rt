// The runs.
ghost use Rattle.std.specs.Prelude.{◌+◌, ◌≤◌};

use crate::lent::{Lent, WORD};
use crate::page::Page;
use crate::show::Words;
use rules::answer::Ran;
use std::fmt;
use std::fmt::Write;

// Sixteen of the numbers, as the first values.
pub fn values(numbers: &[u16; 32], from: usize) -> [u16; 16]
    requires { from + 16 ≤ 32 }
{
    let mut all = [0; 16];
    all.copy_from_slice(&numbers[from..from + 16]);
    all
}

// `source BUDGET SLOTS VALUES ROWS`
pub fn source(rows: &[u8], numbers: &[u16; 32], lent: &mut Lent, page: &mut Page) -> fmt::Result {
    let trace = lent.slots(numbers[1]);
    let r = finuraho::run_source(rows, values(numbers, 2), numbers[0], trace);
    ran(r, trace, page)?;
    writeln!(page, "")
}

// `total STEPS DOS CALLS`
pub fn total(numbers: &[u16; 32], page: &mut Page) -> fmt::Result {
    let steps = finuraho::hardened_steps(numbers[0], numbers[1], numbers[2]);
    writeln!(page, "{steps}")
}

// `hardened BUDGET STEP PLACE SLOTS WORDS VALUES LINES`
pub fn hardened(
    lines: &[u8],
    numbers: &[u16; 32],
    lent: &mut Lent,
    page: &mut Page,
) -> fmt::Result {
    let (trace, counters) = lent.slots_and_words(numbers[3], numbers[4]);
    let r = finuraho::run_hardened(
        lines,
        values(numbers, 5),
        numbers[0],
        numbers[1],
        numbers[2],
        trace,
        counters,
    );
    ran(r, trace, page)?;
    writeln!(page, " {}", words_after(counters))
}

fn ran(r: Ran, trace: &[u16], page: &mut Page) -> fmt::Result {
    write!(
        page,
        "{} {} {} {} {} {}",
        r.number,
        r.outcome,
        r.steps,
        r.traced,
        Words(&r.variables),
        Words(trace)
    )
}

// What became of the counter words.
pub fn words_after(counters: &[u16]) -> &'static str {
    if all_are(counters, WORD) {
        return "kept";
    }
    if is_zero(counters) {
        return "zero";
    }
    "other"
}

// The first 1,024 of them; those behind them are kept.
fn is_zero(counters: &[u16]) -> bool {
    match counters.split_at_checked(1024) {
        Some((first, others)) => all_are(first, 0) && all_are(others, WORD),
        None => false,
    }
}

fn all_are(words: &[u16], x: u16) -> bool {
    words.iter().all(|w| *w == x)
}
