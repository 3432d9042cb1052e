// Reading a text of any length in constant memory.
ghost use Rattle.std.specs.Prelude.{◌≡◌, [], ◌∷◌, ◌≤◌, ◌<◌, length};
ghost use Rattle.text.specs.Hex.{digit_of_lem};
ghost use Rattle.text.specs.Reading.{good_at, spoilt_reader, newline_reader, Sane, Started, Fed, Added};

// A malformed line was met; the digits so far on the line; the value of the last first digit; the bytes stored.
#[derive(Clone, Copy)]
pub struct Reader {
    pub bad: bool,
    pub column: usize,
    pub high: u8,
    pub length: usize,
}

// The value of a byte of text, where it is a digit.
#[tactic(auto, using(std::proofs::lemmas::Bool::Decides::nat_tests), unfolding(crate::specs::Hex::digit_of_lem))]
fn digit_of(b: u8) -> Option<u8>
    ensures { result ≡ digit_of_lem b }
{
    match b {
        b'0'..=b'9' => Some(b - b'0'),
        b'a'..=b'f' => Some(b - b'a' + 10),
        _ => None,
    }
}

fn spoilt(r: Reader) -> Reader
    ensures { result ≡ spoilt_reader r }
{
    Reader { bad: true, ..r }
}

fn at_newline(r: Reader, digits: usize) -> Reader
    ensures { result ≡ newline_reader digits r }
{
    if r.column != digits {
        return spoilt(r);
    }
    Reader { column: 0, ..r }
}

// A byte's first digit is kept, its second one makes the byte, which is stored where there is room.
fn add_digit(v: u8, r: Reader, rows: &mut [u8]) -> Reader
    requires { (v < 16) × (r.column < 1000) × (r.high < 16) × (r.length ≤ length rows.old) }
    ensures { Added v r rows.old result rows.new }
{
    let column = r.column + 1;
    if r.column % 2 == 0 {
        return Reader {
            column,
            high: v,
            ..r
        };
    }
    let at = r.length;
    if at >= rows.len() {
        return Reader { column, ..r };
    }
    rows[at] = 16 * r.high + v;
    Reader {
        column,
        length: at + 1,
        ..r
    }
}

// One byte of text.
fn take_byte(b: u8, digits: usize, r: Reader, rows: &mut [u8]) -> Reader
    requires { Sane digits r rows.old }
    ensures { Fed digits (b ∷ []) r rows.old result rows.new }
{
    if r.bad {
        return r;
    }
    if b == b'\n' {
        return at_newline(r, digits);
    }
    if r.column >= digits {
        return spoilt(r);
    }
    match digit_of(b) {
        Some(v) => add_digit(v, r, rows),
        None => spoilt(r),
    }
}

pub fn start() -> Reader
    ensures { Started result }
{
    Reader {
        bad: false,
        column: 0,
        high: 0,
        length: 0,
    }
}

// Reads on: bytes that no longer fit in `rows` are dropped. The rows stay the caller's, who reads into them piece by piece (Fed, Sane).
pub fn feed(text: &[u8], digits: usize, r: Reader, rows: &mut [u8]) -> Reader
    requires { Sane digits r rows.old }
    ensures { Fed digits text.now r rows.old result rows.new }
{
    let mut q = r;
    for b in text {
        q = take_byte(*b, digits, q, rows);
    }
    q
}

// Whether the text may end here.
pub fn is_good(r: Reader, digits: usize) -> bool
    ensures { result ≡ good_at digits r.bad r.column }
{
    !r.bad && (r.column == 0 || r.column == digits)
}
