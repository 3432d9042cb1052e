// Reading the table back, and printing the answer.
ghost use Rattle.std.specs.Prelude.{◌≡◌, ◌≤◌, length};

use console::output;
use rows::WIDTH;
use rules::limits::ROWS;
use text::write;

// The bytes of the largest table.
const LARGEST: usize = WIDTH * ROWS;

pub fn answer(rt: &impl Print, lines: &[u8], rows: &mut [u8], listing: &mut [u8])
    requires { (65536 ≡ length rows.old) × (65536 ≡ length listing.old) }
{
    // The number is 01's, and 0 is none: the C struct has it so.
    let w = finuraho::read_back(lines, rows);
    if w.number != 0 {
        output::refused(rt, w.number, listing);
        return;
    }
    list(rt, &rows[..w.length.min(LARGEST)], listing);
}

// As many rows as are whole.
fn list(rt: &impl Print, rows: &[u8], listing: &mut [u8])
    requires { (length rows.now ≤ 6144) × (65536 ≡ length listing.old) }
{
    let whole = rows.len() - rows.len() % WIDTH;
    let n = write::listing(&rows[..whole], WIDTH, listing);
    output::answer(rt, output::front(n, listing));
}
