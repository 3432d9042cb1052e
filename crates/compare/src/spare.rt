// What a run is tried in beside the unstruck one.
ghost use Rattle.std.specs.Prelude.{◌≡◌, length};
ghost use Rattle.rules.specs.Limits.{counter_words};
ghost use Rattle.compare.specs.Compared.{piece_steps};

use rules::limits::COUNTERS;

// The steps of a piece, and so the rows that it may record.
pub const PIECE: usize = 1024;

// Counter words of its own, and the rows of a piece.
#[derive(Drop)]
pub struct Spare {
    pub counters: [u16; COUNTERS],
    pub rows: [u16; PIECE],
    pub ghost words_are: { length counters ≡ counter_words },
    pub ghost rows_are: { length rows ≡ piece_steps },
}

impl Spare {
    pub fn new() -> Spare {
        Spare {
            counters: [0; COUNTERS],
            rows: [0; PIECE],
        }
    }
}
