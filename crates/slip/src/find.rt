// What the jump of a run amounts to: the run is made up to the jump, to see where it stands.
ghost use Rattle.std.specs.Prelude.{◌≡◌, true, ◌≤◌, length};
ghost use Rattle.rules.specs.Line.{lines_in};
ghost use Rattle.rules.specs.ReadBack.{is_hardened_lem};
ghost use Rattle.machine.specs.Run.{parts_in};
ghost use Rattle.machine.specs.Runnable.{map_in};
ghost use Rattle.machine.specs.Stands.{Going};
ghost use Rattle.slip.specs.Amount.{amount_of, AmountPromise, amount_at, amount_run};

use crate::amount;
use crate::amount::Amount;
use guard::counters;
use machine::run::run_lines;
use machine::table::Runnable;
use rules::limits::{COUNTERS, VARIABLES};
use rules::step::Step;
use state::machine::{Machine, begun};

// Out of where the machine stands, to a place of the function that runs.
fn out_of(
    table: &Runnable,
    machine: Machine,
    left: u16,
    place: u16,
    words: &[u16],
    trace: &[u16],
) -> Amount
    requires { Going (lines_in table.now.lines.now) left (parts_in machine words.now trace.now) }
    ensures { result ≡ amount_at table.now.lines.now (map_in table.now) machine.registers place }
{
    let h = machine.registers;
    let (first, last) = table.places_of(h.function);
    if last < place {
        return Amount::NotSmall;
    }
    amount::between(table.lines, h.at, first + place)
}

// After as many steps as the jump names, if the budget holds one more and they do not end the run.
// Not shared with the jump of `strike`, which runs on where the budget holds no jump.
fn at_jump(
    table: &Runnable,
    start: Machine,
    budget: u16,
    step: u16,
    place: u16,
    words: &mut [u16],
    trace: &mut [u16],
) -> Amount
    requires { Going (lines_in table.now.lines.now) budget (parts_in start words.old trace.old) }
    ensures { result ≡ amount_run table.now.lines.now (map_in table.now) budget step place (parts_in start words.old trace.old) }
{
    if budget <= step {
        return Amount::NotSmall;
    }
    let x = run_lines(table, start, step, words, trace);
    let s = x.step;
    let Step::Went(_) = s else {
        return Amount::NotSmall;
    };
    let left = budget - step;
    out_of(table, x.machine, left, place, words, trace)
}

fn of_hardened(
    lines: &[u8],
    variables: [u16; VARIABLES],
    budget: u16,
    step: u16,
    place: u16,
    trace: &mut [u16],
) -> Amount
    requires { (is_hardened_lem lines.now ≡ true) × (budget ≤ length trace.old) }
    ensures { result ≡ amount_of lines.now variables budget step place }
{
    let table = Runnable::of(lines);
    let mut words = [0; COUNTERS];
    counters::fresh(&mut words, 0, 1);
    at_jump(
        &table,
        begun(0, variables),
        budget,
        step,
        place,
        &mut words,
        trace,
    )
}

// What the jump before `step` to `place` amounts to in a run of this table. The slots are overwritten.
pub fn of_jump(
    lines: &[u8],
    variables: [u16; VARIABLES],
    budget: u16,
    step: u16,
    place: u16,
    trace: &mut [u16],
) -> Amount
    requires { budget ≤ length trace.old }
    ensures { AmountPromise lines.now variables budget step place result }
{
    if reader::is_hardened(lines) {
        return of_hardened(lines, variables, budget, step, place, trace);
    }
    Amount::NotSmall
}
