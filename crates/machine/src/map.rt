// Where the functions of a hardened table are: one pass over its lines.
ghost use Rattle.std.specs.Prelude.{◌≡◌, ◌+◌, ◌*◌, ◌≤◌, ◌<◌, length};
ghost use Rattle.rules.specs.Limits.{max_functions, max_lines};
ghost use Rattle.rules.specs.Line.{line_width, lines_in};
ghost use Rattle.rules.specs.Function.{ret_value};
ghost use Rattle.line.specs.Read.{line_kind_at};
ghost use Rattle.machine.specs.Map.{passed, passed_of};
ghost use Rattle.machine.specs.Stands.{Sound, Located};

use line::kind::LineKind;
use line::{Line, read};
use rules::limits::{FUNCTIONS, LINES};

// A line of a function is passed: the function of the next line.
fn pass(lines: &[u8], line: u16, function: u8, starts: &mut [u16; FUNCTIONS + 1]) -> u8
    requires { (line_width * line + line_width ≤ length lines.now) × (line < 65535) × (function < max_functions) }
    ensures { passed result starts.new ≡ passed_of (line_kind_at lines.now line) line function starts.old }
{
    let LineKind::Ret = read::kind_at(lines, line) else {
        return function;
    };
    let next = function + 1;
    starts[next as usize] = line + 1;
    next
}

pub fn survey(lines: &[u8], starts: &mut [u16; FUNCTIONS + 1], owners: &mut [u8; LINES + 1])
    requires { (Sound (lines_in lines.now)) × (length starts.old ≡ max_functions + 1) × (length owners.old ≡ max_lines + 1) }
    ensures { Located (lines_in lines.now) starts.new owners.new }
{
    let count = (lines.len() / Line::WIDTH) as u16;
    starts[0] = 0;
    let mut function: u8 = 0;
    for line in 0..count {
        owners[line as usize] = function;
        function = pass(lines, line, function, starts);
    }
}

// The a of function 0's ret.
pub fn home_of(lines: &[u8], starts: &[u16; FUNCTIONS + 1], owners: &[u8; LINES + 1]) -> u16
    requires { (Sound (lines_in lines.now)) × (Located (lines_in lines.now) starts.now owners.now) }
    ensures { result ≡ ret_value (lines_in lines.now) 0 }
{
    let finish = starts[1];
    let l = read::line_at(lines, finish - 1);
    l.a
}
