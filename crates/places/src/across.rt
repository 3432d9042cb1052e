// The one place that a do, and no guard, parts from another.
ghost use Rattle.std.specs.Prelude.{◌≡◌, ◌<◌, length};
ghost use Rattle.rules.specs.Line.{lines_in};
ghost use Rattle.rules.specs.Settled.{across};
ghost use Rattle.places.specs.Places.{across_kind};

use line::kind::LineKind;
use line::read;

// The line number of that place, seen from a line of this kind, or k where there is none: before line 0 there is no line.
fn beside(kind: LineKind, k: u16) -> u16
    requires { k < 65535 }
    ensures { result ≡ across_kind kind k }
{
    match kind {
        LineKind::Do => k + 1,
        LineKind::Tick => k.saturating_sub(1),
        LineKind::Test
        | LineKind::Leave
        | LineKind::Out
        | LineKind::Call
        | LineKind::Back
        | LineKind::Ret => k,
    }
}

pub fn line_across(lines: &[u8], k: u16) -> u16
    requires { (k < length (lines_in lines.now)) × (k < 65535) }
    ensures { result ≡ across (lines_in lines.now) k }
{
    beside(read::kind_at(lines, k), k)
}
