// Sweeps a hardened table at the bench (02, No. 4):
//
//     sweep [budget=N] [v0=N .. v15=N] [list] < lines
//     sweep [budget=N] [v0=N .. v15=N] map [function=F] < lines
//
// It prints how many of the struck runs ended with an alarm, finished with the trace of the unstruck run, finished with another, and did not
// finish, each on a line of its own, and with `list` each jump across one do that finished with another trace before them; with `map` in their
// place a picture of how every jump inside one function ends; or `refused N`, or `unreadable`, as the other programs do. docs/PROGRAMS.md has
// every word of it.
#![tactic(auto)]

ghost use Rattle.std.specs.Prelude.{◌≡◌, length};

mod answer;
mod jump;
mod list;
mod map;
#[cfg(test)]
mod tests;

use command::sweep_words::{SweepAsked, SweepFault};
use command::{sweep_words, wrong};
use console::page::Page;
use console::standard_error::StandardError;
use console::{input, output, start};
use rules::limits::COUNTERS;
use std::env::Env;
use std::fmt::Write;

fn main(rt: HostRuntime) {
    if start::asks_help(&rt) {
        start::tell(
            &rt,
            b"usage: sweep [budget=N] [v0=N .. v15=N] [list] < lines
       sweep [budget=N] [v0=N .. v15=N] map [function=F] < lines
N is 0 to 65535, F 0 to 31. Without budget= it is 65535, without v0= to v15= and function= they are 0.
list lists each jump across one do that finished with another trace.
map draws how every jump inside function F ends, as an SVG picture.
",
        );
        return;
    }
    take_words(&rt);
}

fn take_words(rt: &(impl Env + Input + Print)) {
    let mut buffer = io::buffer();
    match sweep_words::read(rt, &mut buffer) {
        Err(SweepFault::Word(f)) => {
            let n = f.length.min(buffer.len());
            wrong::say(&mut buffer[..n], f.expected);
        }
        Err(SweepFault::Mapless) => {
            let _ = writeln!(StandardError, "function= needs the word map");
        }
        Ok(a) => {
            let mut bytes = io::large_buffer();
            take_lines(rt, a, &mut buffer, &mut bytes);
        }
    }
}

fn take_lines(rt: &(impl Input + Print), a: SweepAsked, chunk: &mut [u8], bytes: &mut [u8])
    requires { 65536 ≡ length bytes.old }
{
    if let Some(n) = input::take_lines(rt, chunk, bytes) {
        sweep(rt, a, output::front(n, bytes));
    }
}

fn sweep(rt: &impl Print, a: SweepAsked, lines: &[u8]) {
    let mut page = Page::new(rt);
    // Slots for the longest trace.
    let mut trace = [0u16; 65535];
    let mut counters = [0u16; COUNTERS];
    let r = finuraho::sweep(lines, a.variables, a.budget, &mut trace, &mut counters);
    if r.number != 0 {
        refused(rt, r.number);
        return;
    }
    answer::answer(a, r, lines, &mut trace, &mut counters, &mut page);
    page.flush();
}

// By output::refused, which promises the line; not compiled into its caller, whose frame has the page.
#[inline(never)]
fn refused(rt: &impl Print, number: u8) {
    let mut text = io::large_buffer();
    output::refused(rt, number, &mut text);
}
