// The sweeps: BUDGET SLOTS WORDS VALUES LINES stand behind both words.
use crate::lent::Lent;
use crate::page::Page;
use crate::runs::{values, words_after};
use crate::show::Words;
use std::fmt;
use std::fmt::Write;

// `whole`: the number and the four counts.
pub fn whole(lines: &[u8], numbers: &[u16; 32], lent: &mut Lent, page: &mut Page) -> fmt::Result {
    let (trace, counters) = lent.slots_and_words(numbers[1], numbers[2]);
    let r = finuraho::sweep(lines, values(numbers, 3), numbers[0], trace, counters);
    write!(
        page,
        "{} {} {} {} {}",
        r.number, r.alarms, r.same, r.other, r.unfinished
    )?;
    after(trace, counters, page)
}

// `other`: the number, and 1 where there is another trace.
pub fn other(lines: &[u8], numbers: &[u16; 32], lent: &mut Lent, page: &mut Page) -> fmt::Result {
    let (trace, counters) = lent.slots_and_words(numbers[1], numbers[2]);
    let r = finuraho::sweep_other(lines, values(numbers, 3), numbers[0], trace, counters);
    write!(page, "{} {}", r.number, u8::from(r.other))?;
    after(trace, counters, page)
}

// The lent buffers.
fn after(trace: &[u16], counters: &[u16], page: &mut Page) -> fmt::Result {
    writeln!(page, " {} {}", Words(trace), words_after(counters))
}
