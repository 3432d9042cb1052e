// Reading a hardened table back: the rows of a candidate, and whether they are a table that hardens to the same bytes.
#![tactic(auto)]

ghost use Rattle.std.specs.Prelude.{◌≡◌, length};
ghost use Rattle.rules.specs.ReadBack.{is_hardened_lem};
ghost use Rattle.reader.specs.Functions.{Short};
ghost use Rattle.reader.specs.Candidate.{CandidateIs};
ghost use Rattle.reader.specs.Found.{JudgedIs, FoundIs};

use line::Line;
use rows::row::Row;
use rules::limits::LINES;

pub mod candidate;
pub mod compare;
pub mod dos;
pub mod functions;
pub mod row;

// The bytes of the longest hardened table.
const LONGEST: usize = LINES * Line::WIDTH;

// The bytes of the largest table, and of two rows more.
pub const ROOM: usize = candidate::LARGEST + 2 * Row::WIDTH;

// The rows that the lines are read back to. A function of its own, so that the words of the lines are gone when the rows are judged.
fn candidate_of(lines: &[u8], rows: &mut [u8]) -> Option<usize>
    requires { (Short lines.now) × (length rows.old ≡ 6156) }
    ensures { CandidateIs lines.now rows.new result }
{
    let mut owners = [0; LINES + 1];
    functions::number_lines(lines, &mut owners);
    candidate::read_rows(lines, &owners, rows)
}

// The candidate is given; what it was read from is not looked at again.
fn judge(lines: &[u8], rows: &[u8]) -> Option<usize>
    ensures { JudgedIs lines.now rows.now result }
{
    if compare::hardens_to(rows, lines) {
        return Some(rows.len());
    }
    None
}

// Puts the source table of a hardened one at the front of `rows`, and answers with its number of bytes; none where the lines are not
// hardened.
pub fn read(lines: &[u8], rows: &mut [u8]) -> Option<usize>
    requires { length rows.old ≡ 6156 }
    ensures { FoundIs lines.now rows.new result }
{
    if lines.len() > LONGEST {
        return None;
    }
    let count = candidate_of(lines, rows)?;
    judge(lines, &rows[..count])
}

// Only tells whether the bytes are a hardened table.
pub fn is_hardened(lines: &[u8]) -> bool
    ensures { result ≡ is_hardened_lem lines.now }
{
    let mut rows = [0; ROOM];
    read(lines, &mut rows).is_some()
}
