// The explaining program: rows in, one to a line of 12 digits as the hardening program reads them, and one line out: `accepted`, or
// `refused N at row R: ` and what is wrong there in words; or `unreadable` where any line is malformed. The input is read to its end in
// constant memory before anything is printed. docs/PROGRAMS.md has the words, and what is said where there is no answer.
#![tactic(auto)]

ghost use Rattle.std.specs.Prelude.{◌≡◌, length};

mod fields;
mod output;
mod row;
mod words;

use console::{input, start};

fn main(rt: HostRuntime) {
    if start::is_bare(
        &rt,
        b"usage: explain < rows
Reads a source table, 12 hexadecimal digits to a line, and prints accepted, or which row is refused and why, or unreadable.
",
    ) {
        explain(&rt);
    }
}

fn explain(rt: &(impl Input + Print)) {
    let mut chunk = io::buffer();
    let mut rows = io::large_buffer();
    if let Some(n) = input::take_rows(rt, &mut chunk, &mut rows) {
        output::answer(rt, &rows[..n]);
    }
}
