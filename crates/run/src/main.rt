// Runs a table at the bench:
//
//     run source [budget=N] [v0=N .. v15=N] [trace] [show] < rows
//     run hardened [budget=N] [v0=N .. v15=N] [jump=STEP:PLACE] [trace] [show] < lines
//
// It prints outcome, steps, trace, in a source run the calls, and variables, each on a line of its own, and with `show` each step before
// them; or `refused N`, or `unreadable`, as the programs harden and readback do. A missing budget is 65,535, a missing variable 0. A wrong
// word is answered by a line on standard error, and nothing is run. The input is read to its end in constant memory before anything is
// printed. What a small jump amounts to stands in a line before the outcome. docs/PROGRAMS.md has every word of it.
#![tactic(auto)]

ghost use Rattle.std.specs.Prelude.{◌≡◌, length};

mod answer;
#[cfg(test)]
mod tests;

use command::arguments::{Asked, Jump, Mode};
use command::{arguments, wrong};
use console::page::Page;
use console::standard_error::StandardError;
use console::{input, output, start};
use rules::answer::Ran;
use rules::limits::{COUNTERS, NO_STEP};
use rules::strike::strike_by;
use show::{hardened_steps, source_steps};
use slip::amount::Amount;
use slip::find;
use std::env::Env;
use std::fmt::Write as _;

fn main(rt: HostRuntime) {
    if !start::has_words(&rt) || start::asks_help(&rt) {
        start::tell(
            &rt,
            b"usage: run source [budget=N] [v0=N .. v15=N] [trace] [show] < rows
       run hardened [budget=N] [v0=N .. v15=N] [jump=STEP:PLACE] [trace] [show] < lines
N, STEP and PLACE are 0 to 65535. Without budget= it is 65535, without v0= to v15= they are 0, without jump= there is no jump.
trace lists a trace of more than 20 rows, show lists each step.
",
        );
        return;
    }
    take_words(&rt);
}

fn take_words(rt: &(impl Env + Input + Print)) {
    let mut buffer = io::buffer();
    match arguments::read(rt, &mut buffer) {
        Err(f) => {
            let n = f.length.min(buffer.len());
            wrong::say(&mut buffer[..n], f.expected);
        }
        Ok(a) => {
            let mut bytes = io::large_buffer();
            tell_no_jump(a);
            run(rt, a, &mut buffer, &mut bytes);
        }
    }
}

// No budget holds step 65,535, so that a jump before it is none.
fn tell_no_jump(a: Asked) {
    if let Some(Jump { step: NO_STEP, .. }) = a.jump {
        let _ = writeln!(StandardError, "step 65535 is no jump: no budget holds it");
    }
}

fn run(rt: &(impl Input + Print), a: Asked, chunk: &mut [u8], bytes: &mut [u8])
    requires { 65536 ≡ length bytes.old }
{
    if let Some(n) = take(rt, a.mode, chunk, bytes) {
        run_table(rt, a, output::front(n, bytes));
    }
}

// The rows or the lines, as bytes.
fn take(rt: &(impl Input + Print), mode: Mode, chunk: &mut [u8], bytes: &mut [u8]) -> Option<usize>
    requires { 65536 ≡ length bytes.old }
{
    match mode {
        Mode::Source => input::take_rows(rt, chunk, bytes),
        Mode::Hardened | Mode::Sweep => input::take_lines(rt, chunk, bytes),
    }
}

fn run_table(rt: &impl Print, a: Asked, table: &[u8]) {
    let mut page = Page::new(rt);
    // Slots for the longest trace.
    let mut trace = [0u16; 65535];
    let calls = list_steps(a, table, &mut trace, &mut page);
    let amount = amount(a, table, &mut trace);
    let r = ran(a, table, &mut trace);
    if r.number != 0 {
        // Behind steps there is never a refusal: the page holds nothing.
        refused(rt, r.number);
        return;
    }
    answer::tell(r, a.trace, calls, amount, &trace, &mut page);
    page.flush();
}

// By output::refused, which promises the line; not compiled into its caller, whose frame has the page.
#[inline(never)]
fn refused(rt: &impl Print, number: u8) {
    let mut text = io::large_buffer();
    output::refused(rt, number, &mut text);
}

// What a jump amounts to, told before the run: it overwrites the slots.
fn amount(a: Asked, table: &[u8], trace: &mut [u16; 65535]) -> Amount {
    let Some(jump) = a.jump else {
        return Amount::NotSmall;
    };
    find::of_jump(
        table,
        a.variables_or_zero(),
        a.budget_or_most(),
        jump.step,
        jump.place,
        trace,
    )
}

// With the word `show`. A source run is always walked, since that counts its calls.
fn list_steps<P: Print>(
    a: Asked,
    table: &[u8],
    trace: &mut [u16; 65535],
    page: &mut Page<P>,
) -> Option<u16> {
    let variables = a.variables_or_zero();
    let budget = a.budget_or_most();
    if a.mode == Mode::Source {
        return Some(source_steps::tell_on(table, variables, budget, a.show, trace, page));
    }
    if a.show {
        let strike = a.jump.and_then(|jump| strike_by(jump.step, jump.place));
        hardened_steps::list_on(table, variables, budget, strike, trace, page);
    }
    None
}

fn ran(a: Asked, table: &[u8], trace: &mut [u16; 65535]) -> Ran {
    let variables = a.variables_or_zero();
    let budget = a.budget_or_most();
    if a.mode == Mode::Source {
        return finuraho::run_source(table, variables, budget, trace);
    }
    let (step, place) = a.jump.map_or((NO_STEP, 0), |jump| (jump.step, jump.place));
    let mut counters = [0u16; COUNTERS];
    finuraho::run_hardened(table, variables, budget, step, place, trace, &mut counters)
}
