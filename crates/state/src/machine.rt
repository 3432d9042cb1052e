// The machine of a run: what it keeps beside the trace slots, and a hardened run's counters, that it is lent.
ghost use Rattle.std.specs.Prelude.{◌≡◌};
ghost use Rattle.state.specs.Machine.{registers_at, moved, stopped_at, machine_at, machine_afresh, begun_at};

use rules::limits::{OPEN, VARIABLES};
use rules::step::Step;

// The numbers of a run: the functions that wait for the running one are as many as `depth`; `at` is the row or the line where the run
// is, `last` what region 0 of the function that returned last ended at.
#[derive(Clone, Copy, Default)]
pub struct Registers {
    pub depth: u16,
    pub function: u8,
    pub at: u16,
    pub last: u16,
    pub steps: u16,
    pub traced: u16,
}

// Where each function that waits goes on, and its number; the variables; the registers. Arrays side by side: 01 asks for this form of
// the machine.
#[derive(Clone, Copy)]
pub struct Machine {
    pub resumes: [u16; OPEN],
    pub functions: [u8; OPEN],
    pub variables: [u16; VARIABLES],
    pub registers: Registers,
}

// What a line or a row answers, and the registers after it. Where the run goes on is in the answer; `at` says it already after a call or
// a return, and after every row of a source table, whose loop reads it there.
#[derive(Drop)]
pub struct Moved {
    pub step: Step,
    pub registers: Registers,
}

// What a run ended with, and the machine that it left.
#[derive(Drop)]
pub struct Stopped {
    pub step: Step,
    pub machine: Machine,
}

// The machine put together where a run stops.
pub fn at_end(
    step: Step,
    resumes: [u16; OPEN],
    functions: [u8; OPEN],
    variables: [u16; VARIABLES],
    registers: Registers,
) -> Stopped
    ensures { result ≡ stopped_at step resumes functions variables registers }
{
    let machine = Machine {
        resumes,
        functions,
        variables,
        registers,
    };
    Stopped { step, machine }
}

pub fn stay(step: Step, registers: Registers) -> Moved
    ensures { result ≡ moved step registers }
{
    Moved { step, registers }
}

// The registers with `at` and the steps set. Here and below they are made anew: a copy that is then changed stays in memory, and a step
// took four times as long.
pub fn standing(h: Registers, at: u16, steps: u16) -> Registers
    ensures { result ≡ registers_at h at steps }
{
    Registers { at, steps, ..h }
}

// The machine that a run starts in: function 0 alone is open, at its first row or line.
pub fn begun(at: u16, variables: [u16; VARIABLES]) -> Machine
    ensures { result ≡ begun_at at variables }
{
    Machine {
        resumes: [0; OPEN],
        functions: [0; OPEN],
        variables,
        registers: Registers {
            at,
            ..Registers::default()
        },
    }
}

// The running function goes to another line.
pub fn at_line(m: Machine, at: u16) -> Machine
    ensures { result ≡ machine_at m at }
{
    Machine {
        registers: Registers { at, ..m.registers },
        ..m
    }
}

// The machine as one that has taken no step and done no do.
pub fn afresh(m: Machine) -> Machine
    ensures { result ≡ machine_afresh m }
{
    Machine {
        registers: Registers {
            steps: 0,
            traced: 0,
            ..m.registers
        },
        ..m
    }
}
