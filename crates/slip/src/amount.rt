// What a jump between two lines amounts to.
ghost use Rattle.std.specs.Prelude.{◌≡◌, ◌*◌, ◌+◌, ◌≤◌, ◌<◌, length};
ghost use Rattle.rules.specs.Line.{line_width, lines_in};
ghost use Rattle.slip.specs.Amount.{slips_by, over_do_lem, amount_between};

use line::kind::LineKind;
use line::read;

// Four answers, each of them told: an Option around the last three would say no more.
#[derive(Drop)]
pub enum Amount {
    // It does not strike, a guard is between the lines, or the place is beyond the last.
    NotSmall,
    // The lines are equal.
    Nothing,
    // The do of this row is left out.
    LeavesOut(u16),
    // The do of this row is done twice.
    Twice(u16),
}

fn slips(row: u16, back: bool) -> Amount
    ensures { result ≡ slips_by row back }
{
    if back {
        return Amount::Twice(row);
    }
    Amount::LeavesOut(row)
}

// Across line k, if that is a do: forward from its place, or back to it. A do's e is its row.
fn over(lines: &[u8], k: u16, back: bool) -> Amount
    requires { line_width * k + line_width ≤ length lines.now }
    ensures { result ≡ over_do_lem (lines_in lines.now) k back }
{
    let LineKind::Do = read::kind_at(lines, k) else {
        return Amount::NotSmall;
    };
    let l = read::line_at(lines, k);
    slips(l.e, back)
}

// From line x to line y. A guard follows each do, so that nothing further away is small.
pub fn between(lines: &[u8], x: u16, y: u16) -> Amount
    requires { (line_width * x ≤ length lines.now) × (line_width * y ≤ length lines.now) × (x < 65535) × (y < 65535) }
    ensures { result ≡ amount_between (lines_in lines.now) x y }
{
    if y == x {
        return Amount::Nothing;
    }
    if y == x + 1 {
        return over(lines, x, false);
    }
    if x == y + 1 {
        return over(lines, y, true);
    }
    Amount::NotSmall
}
