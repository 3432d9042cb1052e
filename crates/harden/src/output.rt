// Hardening the rows, and printing the answer.
ghost use Rattle.std.specs.Prelude.{◌≡◌, ◌≤◌, length};

use console::output;
use line::Line;
use text::write;

// Lines that are printed at a time.
const MANY: usize = 1000;

pub fn answer(rt: &impl Print, rows: &[u8], lines: &mut [u8], listing: &mut [u8])
    requires { (65536 ≡ length lines.old) × (65536 ≡ length listing.old) }
{
    // The number is 01's, and 0 is none: the C struct has it so.
    let w = finuraho::harden(rows, lines);
    if w.number != 0 {
        output::refused(rt, w.number, listing);
        return;
    }
    list(rt, output::front(w.length, lines), listing);
}

// Output that can't be written ends the listing.
fn list(rt: &impl Print, lines: &[u8], listing: &mut [u8])
    requires { 65536 ≡ length listing.old }
{
    for some in lines.chunks(MANY * Line::WIDTH) {
        if !some_lines(rt, some, listing) {
            return;
        }
    }
}

// As many as are whole.
fn some_lines(rt: &impl Print, lines: &[u8], listing: &mut [u8]) -> bool
    requires { (length lines.now ≤ 20000) × (65536 ≡ length listing.old) }
{
    let whole = lines.len() - lines.len() % Line::WIDTH;
    let n = write::listing(&lines[..whole], Line::WIDTH, listing);
    output::answer(rt, output::front(n, listing))
}
