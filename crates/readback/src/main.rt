// The inverse of the hardening program: hardened lines in, one to a line of 40 digits, and the rows of their source table out, one to
// a line of 12; or `refused 10`; or `unreadable` where any line is malformed. The input is read to its end in constant memory before
// anything is printed. docs/PROGRAMS.md has what is said where there is no answer.
#![tactic(auto)]

ghost use Rattle.std.specs.Prelude.{◌≡◌, ◌≤◌, length};

mod output;

use console::{input, start};

fn main(rt: HostRuntime) {
    if start::is_bare(
        &rt,
        b"usage: readback < lines
Reads a hardened table, 40 hexadecimal digits to a line, and prints the rows of its source table, or refused 10, or unreadable.
",
    ) {
        read_back(&rt);
    }
}

fn read_back(rt: &(impl Input + Print)) {
    let mut chunk = io::buffer();
    let mut lines = io::large_buffer();
    let mut rows = io::large_buffer();
    let mut listing = io::large_buffer();
    if let Some(n) = input::take_lines(rt, &mut chunk, &mut lines) {
        output::answer(rt, &lines[..n], &mut rows, &mut listing);
    }
}
