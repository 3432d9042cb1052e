// The links of a table: words for each row.
ghost use Rattle.std.specs.Prelude.{◌≡◌, ◌<◌, length, set};
ghost use Rattle.rules.specs.Limits.{max_rows};

use rules::limits::ROWS;

// By its number the end row of what a row opens, and the else row of an if, or 0.
#[derive(Drop)]
pub struct RowLinks {
    pub ends: [u16; ROWS],
    pub elses: [u16; ROWS],
}

// Sets word `at` to the row `row`.
pub fn link(words: &mut [u16], at: usize, row: usize)
    requires { (at < length words.old) × (row < max_rows) }
    ensures { words.new ≡ set words.old at row }
{
    words[at] = row as u16;
}
