// What the two sweeps ask: how many runs end in each way, and whether any finishes with another trace. At each step of the unstruck run one
// test settles a place of the function running then, and the jump across one do is run.
ghost use Rattle.std.specs.Prelude.{◌≡◌};
ghost use Rattle.rules.specs.Line.{lines_in};
ghost use Rattle.rules.specs.Sweep.{sum_counts, sweep_step, any_other};
ghost use Rattle.rules.specs.Settled.{is_other_lem};
ghost use Rattle.sweeper.specs.Walk.{form};
ghost use Rattle.sweeper.specs.Steps.{InTable, places_of};

use crate::unstruck::Unstruck;
use crate::walk::Asked;
use compare::narrow;
use compare::spare::Spare;
use machine::table::Runnable;
use places::count::places;
use rules::ending::{Counts, Ending};
use state::machine::Machine;

// The places of the function that runs in this machine.
fn strike_all(
    table: &Runnable,
    m: Machine,
    across: u16,
    narrow: Ending,
    left: u16,
    begun: Counts,
) -> Counts
    requires { InTable table.now.lines.now table.now.starts m.registers across begun }
    ensures { result ≡ places_of table.now.lines.now table.now.starts m across narrow left begun }
{
    let h = m.registers;
    let variables = m.variables;
    let f = h.function as usize;
    let first = table.starts[f];
    let last = table.starts[f + 1];
    places(
        table.lines,
        first,
        last,
        h.at,
        across,
        h.depth,
        &variables,
        narrow,
        left,
        begun,
    )
}

// The four counts, of all places of each step.
#[derive(Drop)]
pub struct Counting {
    pub counts: Counts,
}

impl Asked for Counting {
    ghost struck = { λ lines vars b k it. it.counts ≡ sum_counts k (sweep_step (form lines) (lines_in lines) vars b) };

    fn strike(
        &mut self,
        run: &Unstruck,
        step: u16,
        machine: Machine,
        known: &[u16],
        counters: &[u16],
        spare: &mut Spare,
    ) -> bool {
        let left = run.budget - step;
        let n = narrow::across(run.table, machine, left, known, counters, spare);
        let ending = n.ending;
        self.counts = strike_all(run.table, machine, n.line, ending, left, self.counts);
        true
    }
}

pub fn is_other(e: Ending) -> bool
    ensures { result ≡ is_other_lem e }
{
    matches!(e, Ending::Other)
}

// Whether any finishes with another trace: only the jump across one do can, so nothing else is tried.
#[derive(Drop)]
pub struct Searching {
    pub found: bool,
}

impl Asked for Searching {
    ghost struck = { λ lines vars b k it. it.found ≡ any_other (sum_counts k (sweep_step (form lines) (lines_in lines) vars b)) };

    fn strike(
        &mut self,
        run: &Unstruck,
        step: u16,
        machine: Machine,
        known: &[u16],
        counters: &[u16],
        spare: &mut Spare,
    ) -> bool {
        let left = run.budget - step;
        let n = narrow::across(run.table, machine, left, known, counters, spare);
        let found = self.found | is_other(n.ending);
        self.found = found;
        !found
    }
}
