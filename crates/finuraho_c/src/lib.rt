// The public calls for callers in C or Rust (include/finuraho.h): a slice is a pointer and then a length. Each promises what the call
// of its name promises.
#![tactic(auto)]

ghost use Rattle.std.specs.Prelude.{◌≡◌};
ghost use Rattle.rules.specs.Calls.{check_call, run_source_call};
ghost use Rattle.rules.specs.Fault.{fault_call};
ghost use Rattle.rules.specs.TablePromise.{HardenPromise, CheckHardenedPromise, ReadBackPromise};
ghost use Rattle.rules.specs.Promise.{HardenedPromise};
ghost use Rattle.rules.specs.Measure.{MeasurePromise};
ghost use Rattle.rules.specs.Steps.{StepsPromise};
ghost use Rattle.rules.specs.SweepCall.{SweepPromise, SweepOtherPromise};
ghost use Rattle.sweeper.specs.Call.{sweeps, asks};
ghost use Rattle.finuraho.specs.Given.{writes, runs, hardened_runs};

use rules::answer::{AnyOther, Fault, Measured, Ran, Swept, Wrote};
use rules::limits::VARIABLES;

#[unsafe(no_mangle)]
pub extern "C" fn finuraho_check(rows: &[u8]) -> u8
    ensures { result ≡ check_call rows.now }
{
    finuraho::check(rows)
}

#[unsafe(no_mangle)]
pub extern "C" fn finuraho_fault(rows: &[u8]) -> Fault
    ensures { result ≡ fault_call rows.now }
{
    finuraho::fault(rows)
}

#[unsafe(no_mangle)]
pub extern "C" fn finuraho_measure(rows: &[u8]) -> Measured
    ensures { MeasurePromise rows.now result }
{
    finuraho::measure(rows)
}

#[unsafe(no_mangle)]
pub extern "C" fn finuraho_hardened_steps(steps: u16, dos: u16, calls: u16) -> u32
    ensures { StepsPromise steps dos calls result }
{
    finuraho::hardened_steps(steps, dos, calls)
}

#[unsafe(no_mangle)]
pub extern "C" fn finuraho_harden(rows: &[u8], out: &mut [u8]) -> Wrote
    ensures { HardenPromise rows.now out.old (writes result out.new) }
{
    finuraho::harden(rows, out)
}

#[unsafe(no_mangle)]
pub extern "C" fn finuraho_check_hardened(lines: &[u8]) -> u8
    ensures { CheckHardenedPromise lines.now result }
{
    finuraho::check_hardened(lines)
}

#[unsafe(no_mangle)]
pub extern "C" fn finuraho_read_back(lines: &[u8], out: &mut [u8]) -> Wrote
    ensures { ReadBackPromise lines.now out.old (writes result out.new) }
{
    finuraho::read_back(lines, out)
}

#[unsafe(no_mangle)]
pub extern "C" fn finuraho_run_source(
    rows: &[u8],
    variables: &[u16; VARIABLES],
    budget: u16,
    trace: &mut [u16],
) -> Ran
    ensures { runs result trace.new ≡ run_source_call rows.now variables.now budget trace.old }
{
    finuraho::run_source(rows, *variables, budget, trace)
}

#[unsafe(no_mangle)]
pub extern "C" fn finuraho_run_hardened(
    lines: &[u8],
    variables: &[u16; VARIABLES],
    budget: u16,
    step: u16,
    place: u16,
    trace: &mut [u16],
    counters: &mut [u16],
) -> Ran
    ensures { HardenedPromise lines.now variables.now budget step place trace.old counters.old (hardened_runs result trace.new counters.new) }
{
    finuraho::run_hardened(lines, *variables, budget, step, place, trace, counters)
}

#[unsafe(no_mangle)]
pub extern "C" fn finuraho_sweep(
    lines: &[u8],
    variables: &[u16; VARIABLES],
    budget: u16,
    trace: &mut [u16],
    counters: &mut [u16],
) -> Swept
    ensures { SweepPromise lines.now variables.now budget trace.old counters.old (sweeps result trace.new counters.new) }
{
    finuraho::sweep(lines, *variables, budget, trace, counters)
}

#[unsafe(no_mangle)]
pub extern "C" fn finuraho_sweep_other(
    lines: &[u8],
    variables: &[u16; VARIABLES],
    budget: u16,
    trace: &mut [u16],
    counters: &mut [u16],
) -> AnyOther
    ensures { SweepOtherPromise lines.now variables.now budget trace.old counters.old (asks result trace.new counters.new) }
{
    finuraho::sweep_other(lines, *variables, budget, trace, counters)
}
