// The two calls on bytes that are a hardened table: 9, then 13. Two of each function here, and two sweeps in table.rt: C has a struct for each.
ghost use Rattle.std.specs.Prelude.{◌≡◌, true};
ghost use Rattle.rules.specs.ReadBack.{is_hardened_lem};
ghost use Rattle.rules.specs.SweepCall.{sweep_call, sweep_other_call};
ghost use Rattle.sweeper.specs.Call.{refused_swept, refused_any_lem, counts_in, sweeps, asks};

use crate::table;
use rules::answer::{AnyOther, Swept};
use rules::ending::Counts;
use rules::limits::{COUNTERS, VARIABLES};
use rules::refusal::Refusal;

// A number added later returns as 1 does: it, and zeros.
pub fn refused(r: Refusal) -> Swept
    ensures { result ≡ refused_swept r }
{
    Swept {
        number: u8::from(r),
        alarms: 0,
        same: 0,
        other: 0,
        unfinished: 0,
    }
}

pub fn refused_any(r: Refusal) -> AnyOther
    ensures { result ≡ refused_any_lem r }
{
    AnyOther {
        number: u8::from(r),
        other: false,
    }
}

fn counted(c: Counts) -> Swept
    ensures { result ≡ counts_in c }
{
    Swept {
        number: 0,
        alarms: c.alarms,
        same: c.same,
        other: c.other,
        unfinished: c.unfinished,
    }
}

pub fn sweep(
    lines: &[u8],
    variables: [u16; VARIABLES],
    budget: u16,
    trace: &mut [u16],
    counters: &mut [u16],
) -> Swept
    requires { is_hardened_lem lines.now ≡ true }
    ensures { sweeps result trace.new counters.new ≡ sweep_call lines.now variables budget trace.old counters.old }
{
    let slots = trace.len();
    let words = counters.len();
    if slots < budget as usize {
        return refused(Refusal::ShortRoom);
    }
    if words < COUNTERS {
        return refused(Refusal::ShortRoom);
    }
    let x = table::sweep(lines, variables, budget, trace, &mut counters[..COUNTERS]);
    match x {
        Some(c) => counted(c),
        None => refused(Refusal::NotFinished),
    }
}

pub fn sweep_other(
    lines: &[u8],
    variables: [u16; VARIABLES],
    budget: u16,
    trace: &mut [u16],
    counters: &mut [u16],
) -> AnyOther
    requires { is_hardened_lem lines.now ≡ true }
    ensures { asks result trace.new counters.new ≡ sweep_other_call lines.now variables budget trace.old counters.old }
{
    let slots = trace.len();
    let words = counters.len();
    if slots < budget as usize {
        return refused_any(Refusal::ShortRoom);
    }
    if words < COUNTERS {
        return refused_any(Refusal::ShortRoom);
    }
    let x = table::sweep_other(lines, variables, budget, trace, &mut counters[..COUNTERS]);
    match x {
        Some(other) => AnyOther { number: 0, other },
        None => refused_any(Refusal::NotFinished),
    }
}
