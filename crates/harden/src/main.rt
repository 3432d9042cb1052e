// The hardening program (01, "A table and its listing"): rows in, one to a line of 12 digits, and hardened lines out, one to a line
// of 40; or `refused N`; or `unreadable` where any line is malformed. The input is read to its end in constant memory before
// anything is printed. docs/PROGRAMS.md has what is said where there is no answer.
#![tactic(auto)]

ghost use Rattle.std.specs.Prelude.{◌≡◌, ◌+◌, ◌*◌, ◌≤◌, ◌<◌, length};

mod output;

use console::{input, start};

fn main(rt: HostRuntime) {
    if start::is_bare(
        &rt,
        b"usage: harden < rows
Reads a source table, 12 hexadecimal digits to a line, and prints its hardened lines, or refused N, or unreadable.
",
    ) {
        harden(&rt);
    }
}

fn harden(rt: &(impl Input + Print)) {
    let mut chunk = io::buffer();
    let mut rows = io::large_buffer();
    let mut lines = io::large_buffer();
    let mut listing = io::large_buffer();
    if let Some(n) = input::take_rows(rt, &mut chunk, &mut rows) {
        output::answer(rt, &rows[..n], &mut lines, &mut listing);
    }
}
