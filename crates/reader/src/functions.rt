// The function of each line: the rets before it.
ghost use Rattle.std.specs.Prelude.{◌≡◌, ◌+◌, ◌*◌, ◌≤◌, ◌<◌};
ghost use lib.ListN.{length};
ghost use Rattle.rules.specs.Limits.{max_lines};
ghost use Rattle.rules.specs.Line.{line_width};
ghost use Rattle.line.specs.Read.{line_kind_at, ends_function_lem};
ghost use Rattle.reader.specs.Functions.{passed, Short, Numbered};

use line::kind::LineKind;
use line::{Line, read};

pub fn ends_function(kind: LineKind) -> bool
    ensures { result ≡ ends_function_lem kind }
{
    matches!(kind, LineKind::Ret)
}

// The function of the line after this one.
fn pass(lines: &[u8], line: u16, function: u16) -> u16
    requires { (line_width * line + line_width ≤ length lines.now) × (function < 65535) }
    ensures { result ≡ passed (line_kind_at lines.now line) function }
{
    if ends_function(read::kind_at(lines, line)) {
        return function + 1;
    }
    function
}

// Word k becomes the function of line k; the word behind the last line's is the number of functions.
pub fn number_lines(lines: &[u8], owners: &mut [u16])
    requires { (Short lines.now) × (length owners.old ≡ max_lines + 1) }
    ensures { Numbered lines.now owners.new }
{
    let count = (lines.len() / Line::WIDTH) as u16;
    let mut function: u16 = 0;
    for line in 0..count {
        owners[usize::from(line)] = function;
        function = pass(lines, line, function);
    }
    owners[usize::from(count)] = function;
}
