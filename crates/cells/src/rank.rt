// How bad an ending is.
ghost use Rattle.std.specs.Prelude.{◌≡◌};
ghost use Rattle.cells.specs.Worst.{rank, worse};

use rules::ending::Ending;

// From the best to the worst: the worse of two is the greater.
#[derive(Clone, Copy, PartialEq, Eq, PartialOrd, Ord)]
pub enum Rank {
    // The pair was never struck.
    Never,
    Alarmed,
    Same,
    Unfinished,
    Other,
}

impl Rank {
    pub fn worse(self, other: Rank) -> Rank
        ensures { result ≡ worse self other }
    {
        // Written out, and no `max`, so that an edit can turn the comparison alone: must-fail/better_for_the_worse.
        if self < other {
            return other;
        }
        self
    }
}

impl From<Ending> for Rank {
    ghost from_gives = { λ e r. r ≡ rank e };

    fn from(e: Ending) -> Rank {
        match e {
            Ending::Alarmed => Rank::Alarmed,
            Ending::Same => Rank::Same,
            Ending::Unfinished => Rank::Unfinished,
            Ending::Other => Rank::Other,
        }
    }
}
