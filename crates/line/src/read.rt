// The lines of a table, read from its bytes.
ghost use Rattle.std.specs.Prelude.{◌≡◌, ◌+◌, ◌*◌, ◌≤◌, length};
ghost use Rattle.rules.specs.Line.{line_width};
ghost use Rattle.line.specs.Read.{struct_at, line_kind_at};

use crate::Line;
use crate::kind::LineKind;
use rules::bytes::word;
use rules::operands::Operands;

// The kind of line k.
pub fn kind_at(lines: &[u8], k: u16) -> LineKind
    requires { line_width * k + line_width ≤ length lines.now }
    ensures { result ≡ line_kind_at lines.now k }
{
    let at = Line::WIDTH * (k as usize);
    LineKind::from(lines[at])
}

// Line k.
#[tactic(auto, unfolding(crate::specs::Read::struct_at))]
pub fn line_at(lines: &[u8], k: u16) -> Line
    requires { line_width * k + line_width ≤ length lines.now }
    ensures { result ≡ struct_at lines.now k }
{
    let at = Line::WIDTH * (k as usize);
    Line {
        kind: lines[at],
        operands: Operands {
            op: lines[at + 1],
            p: lines[at + 2],
            q: lines[at + 3],
            n: word(lines, at + 4),
        },
        r: lines[at + 6],
        s: lines[at + 7],
        t: lines[at + 8],
        e: word(lines, at + 10),
        a: word(lines, at + 12),
        b: word(lines, at + 14),
        c: word(lines, at + 16),
        go: word(lines, at + 18),
    }
}
