// The endings of the jumps to every place of the running function, place m included.
ghost use Rattle.std.specs.Prelude.{◌≡◌, ◌+◌, ◌*◌, ◌-◌, ◌≤◌, ◌<◌, length};
ghost use Rattle.rules.specs.Line.{line_width};
ghost use Rattle.rules.specs.Sweep.{one, plus, total};
ghost use Rattle.places.specs.Places.{DosIn, wide_at, Beside, unguarded_of, ending_at, max_count, counted_to};

use crate::wide;
use rules::ending::{Counts, Ending};
use rules::limits::VARIABLES;

// One run more.
fn add(c: Counts, e: Ending) -> Counts
    requires { total c < max_count }
    ensures { result ≡ plus c (one e) }
{
    match e {
        Ending::Alarmed => Counts {
            alarms: c.alarms + 1,
            ..c
        },
        Ending::Same => Counts {
            same: c.same + 1,
            ..c
        },
        Ending::Other => Counts {
            other: c.other + 1,
            ..c
        },
        Ending::Unfinished => Counts {
            unfinished: c.unfinished + 1,
            ..c
        },
    }
}

// The counts with those of the lines from `from` to just below `to`, each of them wide.
fn wides(
    lines: &[u8],
    from: u16,
    to: u16,
    variables: &[u16; VARIABLES],
    left: u16,
    begun: Counts,
) -> Counts
    requires { (from ≤ to) × (line_width * to ≤ length lines.now) × (DosIn lines.now) × (total begun + (to - from) ≤ max_count) }
    ensures { result ≡ counted_to begun (to - from) (λ p. wide_at lines.now variables.now left (from + p)) }
{
    let mut c = begun;
    for line in from..to {
        c = add(c, wide::before_line(lines, line, variables, left));
    }
    c
}

// A jump to where the run stands changes nothing; the one across a do, where there is one, ends as its run did.
fn unguarded(at: u16, across: u16, narrow: Ending, begun: Counts) -> Counts
    requires { total begun + 1 < max_count }
    ensures { result ≡ unguarded_of at across narrow begun }
{
    let own = add(begun, Ending::Same);
    if at == across {
        return own;
    }
    add(own, narrow)
}

// The counts with those of the lines from `first` to `last`, which is place m. Every place is wide but the one where the run stands and the
// one across a do: so two loops look at the lines, and neither asks of a line which place it is.
pub fn places(
    lines: &[u8],
    first: u16,
    last: u16,
    at: u16,
    across: u16,
    depth: u16,
    variables: &[u16; VARIABLES],
    narrow: Ending,
    left: u16,
    begun: Counts,
) -> Counts
    requires { (Beside first last at across) × (last < 65535) × (line_width * last ≤ length lines.now) × (DosIn lines.now) × (total begun + (last - first) + 1 ≤ max_count) }
    ensures { result ≡ counted_to begun (last - first + 1) (λ p. ending_at lines.now last at across depth variables.now narrow left (first + p)) }
{
    let low = at.min(across);
    let high = at.max(across);
    let before = wides(lines, first, low, variables, left, begun);
    let there = unguarded(at, across, narrow, before);
    let behind = wides(lines, high + 1, last, variables, left, there);
    add(behind, wide::at_last(depth, left))
}
