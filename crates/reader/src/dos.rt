// Dos and their ticks that stand one after the other: most lines of a program are such, and this loop is quicker than a line at a time.
ghost use Rattle.std.specs.Prelude.{◌≡◌, true, false, ◌≤◌, ◌<◌, length};
ghost use Rattle.rules.specs.Limits.{max_lines};
ghost use Rattle.reader.specs.Functions.{Short};
ghost use Rattle.reader.specs.Candidate.{Pair, DosRead};

use crate::candidate::LARGEST;
use crate::row::copied;
use line::kind::LineKind;
use line::{Line, read};
use rows::kind::DO;

// Whether a do and its tick stand here.
fn is_pair(lines: &[u8], line: u16) -> bool
    requires { (Short lines.now) × (line < 65535) }
    ensures { result ≡ true → Pair lines.now line }
{
    let count = (lines.len() / Line::WIDTH) as u16;
    line + 1 < count
        && matches!(read::kind_at(lines, line), LineKind::Do)
        && matches!(read::kind_at(lines, line + 1), LineKind::Tick)
}

// Puts the rows of the dos from this line on: the line behind the last of them and its tick.
pub fn dos(lines: &[u8], line: u16, rows: &mut [u8], at: usize) -> u16
    requires { (Short lines.now) × (line ≤ max_lines) × (length rows.old ≡ 6156) }
    ensures { DosRead false lines.now rows.old rows.new at line result }
{
    let mut next = line;
    let mut to = at;
    // Kept as a while: how many dos there are is known at the first line that is none.
    while to <= LARGEST && is_pair(lines, next) {
        to = copied(DO, lines, next).write(rows, to);
        next += 2;
    }
    next
}
