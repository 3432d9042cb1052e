// Each jump across one do that finished with another trace, in the order of the steps.
ghost use Rattle.std.specs.Prelude.{◌≡◌, length, ⊤};
ghost use Rattle.rules.specs.Limits.{counter_words};
ghost use Rattle.sweep.specs.Lands.{Lands};

use crate::jump;
use compare::narrow;
use compare::narrow::Narrow;
use compare::spare::Spare;
use console::page::Page;
use machine::table::Runnable;
use state::machine::{Machine, Registers};
use sweeper::steps::is_other;
use sweeper::unstruck::Unstruck;
use sweeper::walk;
use sweeper::walk::Asked;

// One step's jump, where it finished with another trace.
fn tell<P: Print>(table: &Runnable, h: Registers, n: Narrow, step: u16, page: &mut Page<P>)
    requires { Lands table.now.lines.now table.now.starts h n.line }
{
    let ending = n.ending;
    if is_other(ending) {
        jump::tell(table, h, n.line, step, page);
    }
}

// The page that the list goes on.
#[derive(Drop)]
struct Listing<'a, 'b, P: Print> {
    page: &'a mut Page<'b, P>,
}

impl<P: Print> Asked for Listing<'_, '_, P> {
    ghost struck = { λ _ _ _ _ _. ⊤ };

    // The walk goes on where output is lost: that the page knows.
    fn strike(
        &mut self,
        run: &Unstruck,
        step: u16,
        machine: Machine,
        known: &[u16],
        counters: &[u16],
        spare: &mut Spare,
    ) -> bool {
        let left = run.budget - step;
        let n = narrow::across(run.table, machine, left, known, counters, spare);
        tell(run.table, machine.registers, n, step, self.page);
        true
    }
}

pub fn walk<P: Print>(run: &Unstruck, counters: &mut [u16], spare: &mut Spare, page: &mut Page<P>)
    requires { length counters.old ≡ counter_words }
{
    let mut listing = Listing { page };
    walk::walk(run, counters, spare, &mut listing);
}
