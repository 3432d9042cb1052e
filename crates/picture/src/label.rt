// What stands beside a column's place: its line on the left, the do that the narrow jump to it crosses on the right, its number above.
ghost use Rattle.std.specs.Prelude.{◌+◌, ◌*◌, ◌≤◌, ◌<◌, length};
ghost use Rattle.rules.specs.Line.{line_width};

use cells::rank::Rank;
use console::sheet::Sheet;
use line::kind::LineKind;
use line::read;

fn name(kind: LineKind) -> &'static str {
    match kind {
        LineKind::Do => "do",
        LineKind::Tick => "tick",
        LineKind::Test => "test",
        LineKind::Leave => "leave",
        LineKind::Out => "out",
        LineKind::Call => "call",
        LineKind::Back => "back",
        LineKind::Ret => "ret",
    }
}

// The line before this place.
pub fn line<S: Sheet>(place: u16, kind: LineKind, page: &mut S) {
    page.named(b"<text class=\"l\" x=\"-.4\" y=\"", place.into());
    page.named(b".8\">", place.into());
    page.put(b' ');
    page.word(name(kind).as_bytes());
    page.word(b"</text>\n");
}

// The label's class, by what became of the jump.
fn class(r: Rank) -> &'static str {
    match r {
        Rank::Other => "mo",
        Rank::Unfinished => "mu",
        Rank::Never | Rank::Alarmed | Rank::Same => "ms",
    }
}

// The do of this line is crossed by the jump out of place y; nothing where the run never stood there.
fn crossed<S: Sheet>(lines: &[u8], line: u16, words: &[u8], cells: &[Rank], y: usize, page: &mut S)
    requires { line_width * line + line_width ≤ length lines.now }
{
    let r = cells.get(y).copied().unwrap_or(Rank::Never);
    if r == Rank::Never {
        return;
    }
    let row = read::line_at(lines, line).e;
    let x = cells.len() as u64 + 1;
    page.word(b"<text class=\"");
    page.word(class(r).as_bytes());
    page.named(b"\" x=\"", x);
    page.named(b".4\" y=\"", y as u64);
    page.named(b".8\">row ", row.into());
    page.word(words);
    page.word(b"</text>\n");
}

// The narrow jump to this place comes back to a do from its tick, or past it from the do.
pub fn narrow<S: Sheet>(
    lines: &[u8],
    first: u16,
    place: u16,
    kind: LineKind,
    cells: &[Rank],
    page: &mut S,
)
    requires { (first + place < 65535) × (line_width * (first + place) + line_width ≤ length lines.now) }
{
    let y = place as usize;
    match kind {
        LineKind::Do => crossed(lines, first + place, b" done twice", cells, y + 1, page),
        LineKind::Tick if 0 < place => {
            crossed(lines, first + place - 1, b" left out", cells, y - 1, page)
        }
        _ => {}
    }
}

// Every fifth place is numbered.
pub fn number<S: Sheet>(place: u16, page: &mut S) {
    if place % 5 != 0 {
        return;
    }
    page.named(b"<text class=\"t\" x=\"", place.into());
    page.named(b".5\" y=\"-.4\">", place.into());
    page.word(b"</text>\n");
}
