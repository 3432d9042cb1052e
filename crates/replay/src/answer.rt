// What a line asks for: the call is made, and what it gives back is printed.
use crate::asked::Asked;
use crate::call::Call;
use crate::lent::Lent;
use crate::page::Page;
use crate::show::Bytes;
use crate::{runs, sweeps};
use rules::answer::Wrote;
use std::fmt;
use std::fmt::Write;

pub fn answer(asked: &Asked, lent: &mut Lent, page: &mut Page) -> fmt::Result {
    let bytes = asked.bytes();
    let numbers = &asked.numbers;
    match asked.call {
        Call::Check => writeln!(page, "{}", finuraho::check(bytes)),
        Call::Fault => fault(bytes, page),
        Call::Measure => measure(bytes, page),
        Call::Harden => harden(bytes, lent.room(numbers[0]), page),
        Call::Read => read_back(bytes, lent.room(numbers[0]), page),
        Call::Source => runs::source(bytes, numbers, lent, page),
        Call::Total => runs::total(numbers, page),
        Call::Hardened => runs::hardened(bytes, numbers, lent, page),
        Call::Whole => sweeps::whole(bytes, numbers, lent, page),
        Call::Other => sweeps::other(bytes, numbers, lent, page),
    }
}

// `fault ROWS`
fn fault(rows: &[u8], page: &mut Page) -> fmt::Result {
    let f = finuraho::fault(rows);
    writeln!(page, "{} {}", f.number, f.row)
}

// `measure ROWS`
fn measure(rows: &[u8], page: &mut Page) -> fmt::Result {
    let m = finuraho::measure(rows);
    writeln!(page, "{} {} {} {}", m.number, m.lines, m.regions, m.value)
}

// `harden OUTLEN ROWS`
fn harden(rows: &[u8], out: &mut [u8], page: &mut Page) -> fmt::Result {
    let w = finuraho::harden(rows, out);
    wrote(w, out, page)
}

// `read OUTLEN LINES`
fn read_back(lines: &[u8], out: &mut [u8], page: &mut Page) -> fmt::Result {
    let w = finuraho::read_back(lines, out);
    wrote(w, out, page)
}

// The number, the length and the whole buffer.
fn wrote(w: Wrote, out: &[u8], page: &mut Page) -> fmt::Result {
    writeln!(page, "{} {} {}", w.number, w.length, Bytes(out))
}
