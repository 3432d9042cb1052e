// Neighbouring cells of a column, drawn as one piece of a path.
ghost use Rattle.std.specs.Prelude.{◌-◌, ◌≤◌, length};
ghost use Rattle.std.specs.Iterator.{at_most};

use cells::rank::Rank;
use console::sheet::Sheet;

// Which cells are drawn.
#[derive(Clone, Copy)]
pub enum Drawn {
    // Any cell but one that was never struck.
    Struck,
    Of(Rank),
}

impl Drawn {
    fn has(self, cell: Rank) -> bool {
        match self {
            Drawn::Struck => cell != Rank::Never,
            Drawn::Of(r) => cell == r,
        }
    }

    // The runs of such cells, from the first on.
    pub fn runs(self, cells: &[Rank]) -> Runs<'_> {
        Runs {
            drawn: self,
            cells,
            at: 0,
        }
    }
}

// The cells `from` to just below `to`.
#[derive(Clone, Copy)]
pub struct Run {
    pub from: usize,
    pub to: usize,
}

// The cells from `at` on are still to come.
#[derive(Drop)]
pub struct Runs<'a> {
    drawn: Drawn,
    cells: &'a [Rank],
    at: usize,
    ghost at_in: { at ≤ length cells.now },
}

impl Iterator for Runs<'_> {
    type Item = Run;

    ghost remaining = { λ r. at_most (length r.cells.now - r.at) };

    fn next(&mut self) -> Option<Run> {
        let drawn = self.drawn;
        let left = &self.cells[self.at..];
        let from = self.at + left.iter().position(|x| drawn.has(*x))?;
        let behind = &self.cells[from + 1..];
        let to = from
            + 1
            + behind
                .iter()
                .position(|x| !drawn.has(*x))
                .unwrap_or(behind.len());
        self.at = to;
        Some(Run { from, to })
    }
}

// A run, `width` columns from this place on.
pub fn piece<S: Sheet>(place: u16, width: u16, run: Run, page: &mut S) {
    let height = run.to.abs_diff(run.from);
    page.named(b"M", place.into());
    page.named(b" ", run.from as u64);
    page.named(b"h", width.into());
    page.named(b"v", height as u64);
    page.named(b"H", place.into());
    page.put(b'z');
}
