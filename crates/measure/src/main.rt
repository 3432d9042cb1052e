// The measuring program (02, No. 2): rows in, one to a line of 12 digits, and out how much their hardened table takes, in four lines:
// `lines N`, `regions N`, `value N`, `bytes N`; or `refused N`; or `unreadable` where any line is malformed. The input is read to its end
// in constant memory before anything is printed. docs/PROGRAMS.md has what is said where there is no answer.
#![tactic(auto)]

ghost use Rattle.std.specs.Prelude.{◌≡◌, length};

use console::page::Page;
use console::{input, output, start};
use line::Line;
use rules::answer::Measured;

fn main(rt: HostRuntime) {
    if start::is_bare(
        &rt,
        b"usage: measure < rows
Reads a source table, 12 hexadecimal digits to a line, and prints the figures of its hardened table, or refused N, or unreadable.
",
    ) {
        measure(&rt);
    }
}

fn measure(rt: &(impl Input + Print)) {
    let mut chunk = io::buffer();
    let mut rows = io::large_buffer();
    if let Some(n) = input::take_rows(rt, &mut chunk, &mut rows) {
        answer(rt, finuraho::measure(&rows[..n]));
    }
}

fn answer(rt: &impl Print, m: Measured) {
    // The number is 01's, and 0 is none: the C struct has it so.
    if m.number != 0 {
        refused(rt, m.number);
        return;
    }
    let mut page = Page::new(rt);
    tell(m, &mut page);
    page.flush();
}

// By output::refused, which promises the line; not compiled into its caller, whose frame has the page.
#[inline(never)]
fn refused(rt: &impl Print, number: u8) {
    let mut text = io::large_buffer();
    output::refused(rt, number, &mut text);
}

// By named, whose promise holds where output is lost too.
fn tell<P: Print>(m: Measured, page: &mut Page<P>) {
    page.named(b"lines ", m.lines.into());
    page.named(b"\nregions ", m.regions.into());
    page.named(b"\nvalue ", m.value.into());
    page.named(b"\nbytes ", Line::WIDTH as u64 * u64::from(m.lines));
    page.put(b'\n');
}
