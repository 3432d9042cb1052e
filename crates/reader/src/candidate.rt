// The rows that lines are read back to, whether or not they are a table.
ghost use Rattle.std.specs.Prelude.{◌≡◌, length};
ghost use Prim.Native.Nat.{◌+◌, ◌*◌, ◌≤◌};
ghost use Rattle.rules.specs.Limits.{max_lines};
ghost use Rattle.rules.specs.Row.{table_bytes};
ghost use Rattle.rules.specs.Line.{line_width, lines_in, line_at};
ghost use Rattle.rules.specs.Function.{function_at};
ghost use Rattle.rules.specs.ReadBack.{leaves_to_lem, begins, function_row_if, row_for};
ghost use Rattle.rows.specs.Row.{Added};
ghost use Rattle.line.specs.Read.{struct_at};
ghost use Rattle.reader.specs.Functions.{Short, Numbered};
ghost use Rattle.reader.specs.Candidate.{is_leave_lem, test_kind_lem, leave_kind_lem, out_kind_lem, Here, DosRead, CandidateIs};

use crate::dos::dos;
use crate::functions;
use crate::row::{call, copied};
use line::kind::LineKind;
use line::{Line, read};
use rows::kind::{BREAK, CALL, CONTINUE, DO, ELSE, END, FUNCTION, IF, LOOP};
use rows::row::Row;
use rules::bytes::word;
use rules::limits::{LINES, ROWS};

// The bytes of the largest table.
pub const LARGEST: usize = ROWS * Row::WIDTH;

fn is_leave(kind: LineKind) -> bool
    ensures { result ≡ is_leave_lem kind }
{
    matches!(kind, LineKind::Leave)
}

// Where a line goes.
fn go_of(lines: &[u8], line: u16) -> u16
    requires { line_width * line + line_width ≤ length lines.now }
    ensures { result ≡ (struct_at lines.now line).go }
{
    word(lines, Line::WIDTH * (line as usize) + 18)
}

// Whether the line, where there is one, is a leave to line k.
fn leaves_to(lines: &[u8], line: u16, k: u16) -> bool
    requires { Short lines.now }
    ensures { result ≡ leaves_to_lem k (line_at (lines_in lines.now) line) }
{
    let count = (lines.len() / Line::WIDTH) as u16;
    if line >= count {
        return false;
    }
    if is_leave(read::kind_at(lines, line)) {
        return go_of(lines, line) == k;
    }
    false
}

// A test is a loop's where the line before its go leaves back to it.
fn test_kind(lines: &[u8], line: u16) -> u8
    requires { Here lines.now line }
    ensures { result ≡ test_kind_lem lines.now line }
{
    let go = go_of(lines, line);
    if leaves_to(lines, go.saturating_sub(1), line) {
        return LOOP;
    }
    IF
}

// A leave past the next line is an else's.
fn leave_kind(lines: &[u8], line: u16) -> u8
    requires { Here lines.now line }
    ensures { result ≡ leave_kind_lem lines.now line }
{
    if line + 1 < go_of(lines, line) {
        return ELSE;
    }
    END
}

// An out that goes forward is a break.
fn out_kind(lines: &[u8], line: u16) -> u8
    requires { Here lines.now line }
    ensures { result ≡ out_kind_lem lines.now line }
{
    if line < go_of(lines, line) {
        return BREAK;
    }
    CONTINUE
}

// The function of the line that a call goes to; of the end of the table, where it goes beyond.
fn callee(lines: &[u8], owners: &[u16; LINES + 1], line: u16) -> u16
    requires { (Here lines.now line) × (Numbered lines.now owners.now) }
    ensures { result ≡ function_at (lines_in lines.now) (struct_at lines.now line).go }
{
    let count = lines.len() / Line::WIDTH;
    let go = usize::from(go_of(lines, line));
    if go < count {
        return owners[go];
    }
    owners[count]
}

// Puts the function row that stands before a line, where one does.
fn open(opening: bool, rows: &mut [u8], at: usize) -> usize
    requires { at + 6 ≤ length rows.old }
    ensures { Added (table_bytes (function_row_if opening)) rows.old rows.new at result }
{
    if opening {
        return Row::bare(FUNCTION).write(rows, at);
    }
    at
}

// Whether a function row stands before the line after this one.
fn opens_next(lines: &[u8], line: u16) -> bool
    requires { Here lines.now line }
    ensures { result ≡ begins (lines_in lines.now) (line + 1) }
{
    functions::ends_function(read::kind_at(lines, line))
}

// Puts the row that a line stands for; a tick and a back stand for none of their own.
fn stand(lines: &[u8], owners: &[u16; LINES + 1], line: u16, rows: &mut [u8], at: usize) -> usize
    requires { (Here lines.now line) × (Numbered lines.now owners.now) × (at + 6 ≤ length rows.old) }
    ensures { Added (table_bytes (row_for (lines_in lines.now) line (line_at (lines_in lines.now) line))) rows.old rows.new at result }
{
    match read::kind_at(lines, line) {
        LineKind::Do => copied(DO, lines, line).write(rows, at),
        LineKind::Tick => at,
        LineKind::Test => copied(test_kind(lines, line), lines, line).write(rows, at),
        LineKind::Leave => Row::bare(leave_kind(lines, line)).write(rows, at),
        LineKind::Out => Row::bare(out_kind(lines, line)).write(rows, at),
        LineKind::Call => call(CALL, callee(lines, owners, line)).write(rows, at),
        LineKind::Back => at,
        LineKind::Ret => Row::bare(END).write(rows, at),
    }
}

// The dos from this line on, where no function opens: the line behind them.
fn past_dos(opening: bool, lines: &[u8], line: u16, rows: &mut [u8], at: usize) -> u16
    requires { (Short lines.now) × (line ≤ max_lines) × (length rows.old ≡ 6156) }
    ensures { DosRead opening lines.now rows.old rows.new at line result }
{
    if opening {
        return line;
    }
    dos(lines, line, rows, at)
}

// The rows of all lines, by their number of bytes; none where they are more than a table may have: then no more lines are read.
pub fn read_rows(lines: &[u8], owners: &[u16; LINES + 1], rows: &mut [u8]) -> Option<usize>
    requires { (Short lines.now) × (Numbered lines.now owners.now) × (length rows.old ≡ 6156) }
    ensures { CandidateIs lines.now rows.new result }
{
    let count = (lines.len() / Line::WIDTH) as u16;
    let mut at = 0;
    let mut opening = true;
    let mut line: u16 = 0;
    // Kept as a while: dos are passed some lines at a time, so that no range gives the lines.
    while line < count {
        if at > LARGEST {
            return None;
        }
        let next = past_dos(opening, lines, line, rows, at);
        if line < next {
            at = at + 3 * usize::from(next - line);
            line = next;
        } else {
            let opened = open(opening, rows, at);
            at = stand(lines, owners, line, rows, opened);
            opening = opens_next(lines, line);
            line += 1;
        }
    }
    Some(at)
}
