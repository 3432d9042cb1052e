// The walk over the steps of an unstruck run whose trace is known. What is done at each of them is the caller's.
ghost use Rattle.std.specs.Prelude.{◌≡◌, ℕ, suc, true, false, List, [], length};
ghost use Rattle.rules.specs.Limits.{counter_words};
ghost use Rattle.sweeper.specs.Walk.{unstruck, Before};

use crate::unstruck::Unstruck;
use compare::spare::Spare;
use guard::counters::fresh;
use machine::run;
use rules::limits::VARIABLES;
use rules::step::Step;
use state::machine::{Machine, afresh, begun};

// What is asked of a sweep. It is shown each step in turn, with the machine that stands before it, the rest of the trace and the counters.
pub trait Asked {
    // What it asks for, in numbers, where it could ask for something else: that stays.
    ghost asks: { Self → List ℕ } = { λ _. [] };

    // What it holds once so many steps were struck, of this table, these variables and this budget.
    ghost struck: { List ℕ → List ℕ → ℕ → ℕ → Self → Type 0 };

    // Strikes the step; false where those that come later change nothing.
    fn strike(
        &mut self,
        run: &Unstruck,
        step: u16,
        machine: Machine,
        known: &[u16],
        counters: &[u16],
        spare: &mut Spare,
    ) -> bool
        requires before { Before run.now.table.now.lines.now run.now.variables run.now.budget run.now.trace.now step machine known.now counters.now }
        requires held { struck run.now.table.now.lines.now run.now.variables run.now.budget step self.old }
        ensures same { asks self.new ≡ asks self.old }
        ensures on { result ≡ true → struck run.now.table.now.lines.now run.now.variables run.now.budget (suc step) self.new }
        ensures over { result ≡ false → struck run.now.table.now.lines.now run.now.variables run.now.budget (unstruck run.now.table.now.lines.now run.now.variables run.now.budget).steps self.new };
}

// All steps are struck afterwards, or those that were not would change nothing.
pub fn walk<A: Asked>(run: &Unstruck, counters: &mut [u16], spare: &mut Spare, asked: &mut A)
    requires words { length counters.old ≡ counter_words }
    requires held { A.struck run.now.table.now.lines.now run.now.variables run.now.budget 0 asked.old }
    ensures same { A.asks asked.new ≡ A.asks asked.old }
    ensures all { A.struck run.now.table.now.lines.now run.now.variables run.now.budget (unstruck run.now.table.now.lines.now run.now.variables run.now.budget).steps asked.new }
{
    fresh(counters, 0, 1);
    let mut m = begun(0, run.variables);
    let mut at = 0;
    for step in 0..run.budget {
        if !asked.strike(run, step, m, &run.trace[at..], counters, spare) {
            return;
        }
        let x = run::step(run.table, m, counters, &mut spare.rows);
        let s = x.step;
        let Step::Went(_) = s else {
            return;
        };
        at += x.machine.registers.traced as usize;
        m = afresh(x.machine);
    }
}
