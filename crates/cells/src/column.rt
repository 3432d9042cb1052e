// A column of the map: every strike to one place of a function, by the line that it goes out of.
ghost use Rattle.std.specs.Prelude.{◌≡◌, [], ◌∷◌, length};
ghost use Rattle.rules.specs.Limits.{counter_words};
ghost use Rattle.rules.specs.Line.{lines_in};
ghost use Rattle.cells.specs.Worst.{ColumnIs};
ghost use Rattle.cells.specs.Struck.{PlaceOf, Marked};

use crate::rank::Rank;
use crate::struck;
use compare::spare::Spare;
use rules::limits::LINES;
use state::machine::Machine;
use sweeper::unstruck::Unstruck;
use sweeper::walk::{Asked, walk};

// A cell for each line of the table, and the place that all strikes go to.
#[derive(Drop)]
struct Column {
    function: u8,
    place: u16,
    cells: [Rank; LINES],
}

impl Asked for Column {
    ghost asks = { λ it. it.function ∷ it.place ∷ [] };

    ghost struck = { λ lines vars b k it. Marked (lines_in lines) vars b k it.function it.place it.cells };

    fn strike(
        &mut self,
        run: &Unstruck,
        step: u16,
        machine: Machine,
        known: &[u16],
        counters: &[u16],
        spare: &mut Spare,
    ) -> bool {
        let left = run.budget - step;
        let function = self.function;
        let place = self.place;
        let r = struck::rank_of(
            run.table, machine, function, place, left, known, counters, spare,
        );
        let y = machine.registers.at as usize;
        self.cells[y] = self.cells[y].worse(r);
        true
    }
}

// The cells by line: the unstruck run is walked, and each of its steps struck.
pub fn cells(
    run: &Unstruck,
    function: u8,
    place: u16,
    counters: &mut [u16],
    spare: &mut Spare,
) -> [Rank; LINES]
    requires { (PlaceOf (lines_in run.now.table.now.lines.now) function place) × (length counters.old ≡ counter_words) }
    ensures { ColumnIs (lines_in run.now.table.now.lines.now) run.now.variables run.now.budget function place result }
{
    let mut column = Column {
        function,
        place,
        cells: [Rank::Never; LINES],
    };
    walk(run, counters, spare, &mut column);
    column.cells
}
