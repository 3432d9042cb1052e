// The rows that take something from a line.
ghost use Rattle.std.specs.Prelude.{◌≡◌, ◌+◌, ◌*◌, ◌≤◌, length};
ghost use Rattle.rules.specs.Line.{line_width};
ghost use Rattle.reader.specs.Row.{copied_row, call_row};

use line::Line;
use line::bytes::spell;
use rows::row::Row;

// A row with the fields of a line.
pub fn copied(kind: u8, lines: &[u8], line: u16) -> Row
    requires { line_width * line + line_width ≤ length lines.now }
    ensures { result ≡ copied_row kind lines.now line }
{
    let k = Line::WIDTH * (line as usize);
    Row {
        kind,
        op: lines[k + 1],
        p: lines[k + 2],
        q: lines[k + 3],
        low: lines[k + 4],
        high: lines[k + 5],
    }
}

// A row that calls a function.
pub fn call(kind: u8, function: u16) -> Row
    ensures { result ≡ call_row kind function }
{
    let [low, high] = spell(function);
    Row {
        kind,
        op: 0,
        p: 0,
        q: 0,
        low,
        high,
    }
}
