// A step of a hardened run as `show` lists it before it is made: the running function, its place, the kind of the line there, and
// what each counter holds that the step looks at.
ghost use Rattle.std.specs.Prelude.{◌<◌};
ghost use Rattle.rules.specs.Limits.{max_regions};
ghost use Rattle.guard.specs.Fields.{FieldsIn, Room};
ghost use Rattle.machine.specs.Ready.{LineHere};
ghost use Rattle.show.specs.Listed.{Placed};

use crate::front;
use console::sheet::Sheet;
use guard::counters::get;
use line::kind::LineKind;
use line::{Line, read};
use machine::table::Runnable;
use state::machine::Registers;

fn name(kind: LineKind) -> &'static str {
    match kind {
        LineKind::Do => " do",
        LineKind::Tick => " tick",
        LineKind::Test => " test",
        LineKind::Leave => " leave",
        LineKind::Out => " out",
        LineKind::Call => " call",
        LineKind::Back => " back",
        LineKind::Ret => " ret",
    }
}

// ` counter R holds V`
fn counter<S: Sheet>(r: u8, depth: u16, counters: &[u16], page: &mut S)
    requires { (r < max_regions) × (Room depth counters.now) }
{
    page.named(b" counter ", r.into());
    page.named(b" holds ", get(counters, depth, r).into());
}

// The counters that a line looks at: a leave at two, a ret at region 0's, a do at none.
fn looked<S: Sheet>(kind: LineKind, l: Line, depth: u16, counters: &[u16], page: &mut S)
    requires { (FieldsIn kind l) × (Room depth counters.now) }
{
    match kind {
        LineKind::Do => {}
        LineKind::Leave => {
            counter(l.r, depth, counters, page);
            counter(l.s, depth, counters, page);
        }
        LineKind::Ret => counter(0, depth, counters, page),
        LineKind::Tick | LineKind::Test | LineKind::Out | LineKind::Call | LineKind::Back => {
            counter(l.r, depth, counters, page);
        }
    }
}

// A back looks also at where the function that returned last ended.
fn ended<S: Sheet>(kind: LineKind, last: u16, page: &mut S) {
    if matches!(kind, LineKind::Back) {
        page.named(b" ended ", last.into());
    }
}

// The return from place m: the host looks at region 0's counter of a function 0 that is the only open one.
fn end<S: Sheet>(depth: u16, counters: &[u16], page: &mut S)
    requires { Room depth counters.now }
{
    page.word(b" end");
    if depth == 0 {
        counter(0, depth, counters, page);
    }
    page.put(b'\n');
}

fn line<S: Sheet>(lines: &[u8], h: Registers, counters: &[u16], page: &mut S)
    requires { (LineHere lines.now h.at) × (Room h.depth counters.now) }
{
    let kind = read::kind_at(lines, h.at);
    page.word(name(kind).as_bytes());
    looked(kind, read::line_at(lines, h.at), h.depth, counters, page);
    ended(kind, h.last, page);
    page.put(b'\n');
}

pub fn list<S: Sheet>(table: &Runnable, h: Registers, counters: &[u16], page: &mut S)
    requires { Placed table.now.lines.now table.now.starts h counters.now }
{
    let f = h.function as usize;
    let first = table.starts[f];
    let last = table.starts[f + 1];
    front::list(h, b" place ", h.at - first, page);
    if h.at == last {
        end(h.depth, counters, page);
        return;
    }
    line(table.lines, h, counters, page);
}

// The jump, before its step.
pub fn list_jump<S: Sheet>(place: u16, page: &mut S) {
    page.named(b"jump to place ", place.into());
    page.put(b'\n');
}
