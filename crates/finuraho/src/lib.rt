// The public calls. Each promises one equation with its definition in rules/specs (Calls, Fault, Measure, SweepCall, and Match for the steps): number,
// lengths and every lent buffer, for every input; none has a `requires`. Beside it hardening and reading back promise demand 2 of the call's
// own bytes (TablePromise), a hardened run demand 3 of its own bytes, values, budget and jump (Promise), measuring what hardening then
// shows (Measure), the sum of steps what running then shows (Steps), and the sweeps that the four counts add up and that the second call
// tells of the third (SweepCall).
#![tactic(auto)]

ghost use Rattle.std.specs.Prelude.{◌≡◌};
ghost use Rattle.rules.specs.Verdict.{Accepted};
ghost use Rattle.rules.specs.Calls.{check_call, run_source_call, short_output, writing};
ghost use Rattle.rules.specs.Fault.{fault_call};
ghost use Rattle.rules.specs.TablePromise.{HardenPromise, CheckHardenedPromise, ReadBackPromise};
ghost use Rattle.rules.specs.Promise.{HardenedPromise};
ghost use Rattle.rules.specs.Given.{given_verdict};
ghost use Rattle.rules.specs.Measure.{measure_call, MeasurePromise};
ghost use Rattle.rules.specs.Steps.{StepsPromise};
ghost use Rattle.rules.specs.SweepCall.{SweepPromise, SweepOtherPromise};
ghost use Rattle.sweeper.specs.Call.{sweeps, asks};
ghost use Rattle.finuraho.specs.Given.{writes, refused_with, runs, hardened_runs};

mod run;
mod switched;

use rows::WIDTH;
use rules::answer::{AnyOther, Fault, Measured, Ran, Swept, Wrote};
use rules::limits::VARIABLES;
use rules::refusal::Refusal;
use table::links::TableLinks;

// The number that the bytes get as a source table: 0 where hardening accepts them. A number, and no Result: so C has it.
pub fn check(rows: &[u8]) -> u8
    ensures { result ≡ check_call rows.now }
{
    let mut links = TableLinks::new();
    match table::check::check(rows, &mut links) {
        Ok(()) => 0,
        Err(_) => {
            let f = fault(rows);
            f.number
        }
    }
}

// The same number, and the row that it is about: the number of rows where that is the end of the table, or where there is no fault.
pub fn fault(rows: &[u8]) -> Fault
    ensures { result ≡ fault_call rows.now }
{
    match fault::find(rows, &mut []) {
        Err(f) => Fault {
            number: u8::from(f.cause),
            row: f.row,
        },
        Ok(_) => Fault {
            number: 0,
            row: rows.len() / WIDTH,
        },
    }
}

// The figures of an accepted table.
fn figures(rows: &[u8]) -> Measured
    requires { given_verdict rows.now ≡ Accepted }
    ensures { result ≡ measure_call rows.now }
{
    let s = figures::count(rows);
    Measured {
        number: 0,
        regions: s.most as u8,
        lines: s.lines,
        value: s.value,
    }
}

// How much the hardened table of a source table takes: its lines, the most regions that a function has, and the highest counter value
// that a line names. Nothing is written, and `harden` asks for 20 bytes for each line.
pub fn measure(rows: &[u8]) -> Measured
    ensures { MeasurePromise rows.now result }
{
    let number = check(rows);
    if number == 0 {
        return figures(rows);
    }
    Measured {
        number,
        regions: 0,
        lines: 0,
        value: 0,
    }
}

// The steps of the hardened run where the source run finishes with these steps, dos (its trace length) and calls. A sum past 65,535 is
// given whole: then no budget lets the hardened run finish.
pub fn hardened_steps(steps: u16, dos: u16, calls: u16) -> u32
    ensures { StepsPromise steps dos calls result }
{
    figures::steps::hardened_steps(steps, dos, calls)
}

fn refused(r: Refusal) -> Wrote
    ensures { result ≡ refused_with r }
{
    Wrote {
        number: u8::from(r),
        length: 0,
    }
}

// The hardened table of a source table: 01's number and the length of the answer, which stands at the front of `out`.
pub fn harden(rows: &[u8], out: &mut [u8]) -> Wrote
    ensures { HardenPromise rows.now out.old (writes result out.new) }
{
    let mut links = TableLinks::new();
    match table::check::check(rows, &mut links) {
        Err(_) => switched::harden(rows, &mut links, out),
        Ok(()) => hardener::harden_linked(
            rows,
            &links.rows.ends,
            &links.rows.elses,
            &links.heads,
            out,
        ),
    }
}

// The number that the bytes get as a hardened table: 0 where some source table hardens to them, else 10. A number, as `check` gives.
pub fn check_hardened(lines: &[u8]) -> u8
    ensures { CheckHardenedPromise lines.now result }
{
    if reader::is_hardened(lines) {
        return 0;
    }
    u8::from(Refusal::NotHardened)
}

// Copies an answer to the front of the output, where it fits there.
fn give(answer: &[u8], out: &mut [u8]) -> Wrote
    ensures { writes result out.new ≡ writing (short_output answer.now out.old) answer.now out.old }
{
    if out.len() < answer.len() {
        return refused(Refusal::ShortOutput);
    }
    out[..answer.len()].copy_from_slice(answer);
    Wrote {
        number: 0,
        length: answer.len(),
    }
}

// The source table of a hardened one: 01's number and the length of the answer, which stands at the front of `out`.
pub fn read_back(lines: &[u8], out: &mut [u8]) -> Wrote
    ensures { ReadBackPromise lines.now out.old (writes result out.new) }
{
    let mut rows = [0; reader::ROOM];
    match reader::read(lines, &mut rows) {
        None => refused(Refusal::NotHardened),
        Some(n) => give(&rows[..n], out),
    }
}

// Runs a source table: outcome, steps, trace length and variables; the trace stands at the front of `trace`.
pub fn run_source(rows: &[u8], variables: [u16; VARIABLES], budget: u16, trace: &mut [u16]) -> Ran
    ensures { runs result trace.new ≡ run_source_call rows.now variables budget trace.old }
{
    let mut links = TableLinks::new();
    match table::check::check(rows, &mut links) {
        Err(_) => switched::run_source(rows, &mut links, variables, budget, trace),
        Ok(()) => run::source_run(
            rows,
            &links.rows.ends,
            &links.rows.elses,
            &links.heads,
            variables,
            budget,
            trace,
        ),
    }
}

// Slots, counters, variables and budget come one by one here and below, as C lends them.
// Runs a hardened table with a jump before step `step` to `place`; step 65,535 is no jump. The first 1,024 counter words are 0
// afterwards.
pub fn run_hardened(
    lines: &[u8],
    variables: [u16; VARIABLES],
    budget: u16,
    step: u16,
    place: u16,
    trace: &mut [u16],
    counters: &mut [u16],
) -> Ran
    ensures { HardenedPromise lines.now variables budget step place trace.old counters.old (hardened_runs result trace.new counters.new) }
{
    if reader::is_hardened(lines) {
        return run::hardened_run(lines, variables, budget, step, place, trace, counters);
    }
    run::refused(Refusal::NotHardened, variables)
}

// Strikes each step of the unstruck run with each place of the function running then, place m included, and counts how the struck runs end:
// with an alarm, finished with the trace of the unstruck run, finished with another, not finished. 13 where the unstruck run does not finish
// in the budget. The slots then hold its trace, and the first 1,024 counter words are 0.
pub fn sweep(
    lines: &[u8],
    variables: [u16; VARIABLES],
    budget: u16,
    trace: &mut [u16],
    counters: &mut [u16],
) -> Swept
    ensures { SweepPromise lines.now variables budget trace.old counters.old (sweeps result trace.new counters.new) }
{
    if reader::is_hardened(lines) {
        return sweeper::call::sweep(lines, variables, budget, trace, counters);
    }
    sweeper::call::refused(Refusal::NotHardened)
}

// Whether any of these runs finishes with another trace: it stops at the first. Not one function with `sweep`: C has a struct for each.
pub fn sweep_other(
    lines: &[u8],
    variables: [u16; VARIABLES],
    budget: u16,
    trace: &mut [u16],
    counters: &mut [u16],
) -> AnyOther
    ensures { SweepOtherPromise lines.now variables budget trace.old counters.old (asks result trace.new counters.new) }
{
    if reader::is_hardened(lines) {
        return sweeper::call::sweep_other(lines, variables, budget, trace, counters);
    }
    sweeper::call::refused_any(Refusal::NotHardened)
}
