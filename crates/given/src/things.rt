// What is open among the rows as given: functions, ifs and loops, and switches.
ghost use Rattle.std.specs.Prelude.{◌≡◌, Bool, ◌+◌, ◌-◌, ◌≤◌};
ghost use Rattle.rules.specs.Limits.{max_rows, max_constructs};
ghost use Rattle.given.specs.Things.{top_mark, marked_cases, among_words, long_row_lem};

use rules::limits::{CONSTRUCTS, ROWS};

// A mark for each open thing, the outermost first: 0 for a function, an if or a loop; for a switch twice its cases and 1, in its default
// 1 more. Kept as a number: the definitions count a switch's cases by it (mark_of, marked_cases). Beside it a switch's variable; and the
// numbers of the cases of all open switches, the outermost first, in one array.
#[derive(Clone, Copy, Default)]
pub struct Things {
    // The open things, and the cases of all open switches.
    pub count: usize,
    pub cases: usize,
    // The rows of the chain so far, and the first row with which they are over 1,024.
    pub chained: usize,
    pub long: usize,
}

// Of a byte for each open thing the innermost one's: its mark, or its variable.
pub fn innermost(bytes: &[u8; ROWS], count: usize) -> u8
    requires { count ≤ max_rows }
    ensures { result ≡ top_mark bytes.now count }
{
    if count == 0 {
        return 0;
    }
    bytes[count - 1]
}

// The cases of a switch, by its mark.
pub fn cases_of(mark: u8) -> usize
    ensures { result ≡ marked_cases mark }
{
    if mark == 0 {
        return 0;
    }
    ((mark - 1) / 2) as usize
}

// The number is one of the innermost switch's: of the last `count` of the first `to` words.
pub fn among(x: u16, used: &[u16; CONSTRUCTS + 1], to: usize, count: usize) -> bool
    requires { (to ≤ max_constructs) × (count ≤ to) }
    ensures { result ≡ among_words x used.now (to - count) count }
{
    let first = to - count;
    for done in 0..count {
        if used[first + done] == x {
            return true;
        }
    }
    false
}

// The first row with which the chain is over 1,024 rows, where row `at` takes it from `before` to `after` rows.
pub fn long_row(before: usize, after: usize, long: usize, at: usize) -> usize
    ensures { result ≡ long_row_lem before after long at }
{
    if before > ROWS {
        return long;
    }
    if after > ROWS {
        return at;
    }
    long
}
