// The counters: word 64 * depth + r is region r's counter of the open function at that depth. Words and depth come apart, each function asking
// that they fit (`Room`): a fact about words that are lent to be written can't stand in a struct yet, and a call changes the depth.
ghost use Rattle.std.specs.Prelude.{◌≡◌, ◌+◌, ◌*◌, ◌≤◌, ◌<◌, length};
ghost use Rattle.rules.specs.Limits.{counter_words, max_open, max_regions};
ghost use Rattle.rules.specs.Calls.{zeros};
ghost use Rattle.guard.specs.Counters.{counter, with_counter, zeroed, fresh_at};

use rules::limits::REGIONS;

// Every word becomes 0.
pub fn clear(words: &mut [u16])
    ensures { words.new ≡ zeros (length words.old) }
{
    words.fill(0);
}

// Where region r's counter of the function at a depth stands.
pub fn index(depth: u16, r: u8) -> usize
    requires { (depth < max_open) × (r < max_regions) }
    ensures { (result ≡ max_regions * depth + r) × (result < counter_words) }
{
    REGIONS * (depth as usize) + (r as usize)
}

pub fn get(words: &[u16], depth: u16, r: u8) -> u16
    requires { (depth < max_open) × (r < max_regions) × (counter_words ≤ length words.now) }
    ensures { result ≡ counter words.now depth r }
{
    words[index(depth, r)]
}

pub fn put(words: &mut [u16], depth: u16, r: u8, v: u16)
    requires { (depth < max_open) × (r < max_regions) × (counter_words ≤ length words.old) }
    ensures { words.new ≡ with_counter words.old depth r v }
{
    let i = index(depth, r);
    words[i] = v;
}

// The n words from word `from` on become 0.
pub fn zero_part(words: &mut [u16], from: usize, n: usize)
    requires { from + n ≤ length words.old }
    ensures { words.new ≡ zeroed words.old from n }
{
    words[from..from + n].fill(0);
}

// The counters of a function that opens: 0, but region 0's.
pub fn fresh(words: &mut [u16], depth: u16, v: u16)
    requires { (depth < max_open) × (counter_words ≤ length words.old) }
    ensures { words.new ≡ fresh_at words.old depth v }
{
    zero_part(words, REGIONS * (depth as usize), REGIONS);
    put(words, depth, 0, v);
}
