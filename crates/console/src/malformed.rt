// What is wrong with the first malformed line, for standard error. Which text is malformed is the crate text's to tell.
ghost use Rattle.std.specs.Prelude.{◌≡◌};
ghost use Rattle.console.specs.Malformed.{at_first_lem, look_on, next_seen, behind_byte, wrong_byte_lem, wrong_end_lem, wrong_digit_lem};

use crate::standard_error::StandardError;
use std::fmt;
use std::fmt::Write as _;

// What is wrong with a byte, by what stands before it on its line.
#[derive(Clone, Copy)]
enum Wrong {
    CarriageReturn,
    Long,
    Uppercase,
    Space,
    Other,
    Empty,
    Short,
}

// The line, counted from 1, and its digits so far; nothing is counted behind a wrong byte.
#[derive(Clone, Copy)]
pub struct Seen {
    line: u64,
    column: usize,
    wrong: Option<Wrong>,
}

pub fn start() -> Seen
    ensures { result ≡ at_first_lem }
{
    Seen {
        line: 1,
        column: 0,
        wrong: None,
    }
}

// Looks on, where nothing wrong was met yet.
pub fn look(text: &[u8], digits: usize, before: Seen) -> Seen
    ensures { result ≡ look_on digits before text.now }
{
    let mut s = before;
    for b in text {
        s = next(*b, digits, s);
    }
    s
}

#[tactic(auto, using(std::proofs::lemmas::Bool::Decides::nat_tests), unfolding(crate::specs::Malformed::next_seen))]
fn next(b: u8, digits: usize, s: Seen) -> Seen
    ensures { result ≡ next_seen digits s b }
{
    if s.wrong.is_some() {
        return s;
    }
    let found = wrong_byte(b, s.column, digits);
    if found.is_some() {
        return Seen { wrong: found, ..s };
    }
    behind(b, s)
}

#[tactic(auto, using(std::proofs::lemmas::Bool::Decides::nat_tests), unfolding(crate::specs::Malformed::behind_byte))]
fn behind(b: u8, s: Seen) -> Seen
    ensures { result ≡ behind_byte b s }
{
    if b == b'\n' {
        return Seen {
            line: s.line.wrapping_add(1),
            column: 0,
            wrong: None,
        };
    }
    Seen {
        line: s.line,
        column: s.column.wrapping_add(1),
        wrong: None,
    }
}

#[tactic(auto, using(std::proofs::lemmas::Bool::Decides::nat_tests), unfolding(crate::specs::Malformed::wrong_byte_lem))]
fn wrong_byte(b: u8, column: usize, digits: usize) -> Option<Wrong>
    ensures { result ≡ wrong_byte_lem b column digits }
{
    match b {
        b'\n' => wrong_end(column, digits),
        b'\r' => Some(Wrong::CarriageReturn),
        _ => wrong_digit(b, column, digits),
    }
}

#[tactic(auto, using(std::proofs::lemmas::Bool::Decides::nat_tests), unfolding(crate::specs::Malformed::wrong_end_lem))]
fn wrong_end(column: usize, digits: usize) -> Option<Wrong>
    ensures { result ≡ wrong_end_lem column digits }
{
    if column == 0 {
        return Some(Wrong::Empty);
    }
    if column < digits {
        return Some(Wrong::Short);
    }
    None
}

#[tactic(auto, using(std::proofs::lemmas::Bool::Decides::nat_tests), unfolding(crate::specs::Malformed::wrong_digit_lem))]
fn wrong_digit(b: u8, column: usize, digits: usize) -> Option<Wrong>
    ensures { result ≡ wrong_digit_lem b column digits }
{
    if digits <= column {
        return Some(Wrong::Long);
    }
    match b {
        b'0'..=b'9' | b'a'..=b'f' => None,
        b'A'..=b'F' => Some(Wrong::Uppercase),
        b' ' | b'\t' => Some(Wrong::Space),
        _ => Some(Wrong::Other),
    }
}

// What was seen in a text of lines of so many digits.
#[derive(Drop)]
struct Line {
    seen: Seen,
    digits: usize,
}

// `line L: ` and what is wrong with it. Where nothing is, the text ends inside a line.
impl fmt::Display for Line {
    fn fmt<W: fmt::Write>(&self, f: &mut fmt::Formatter<W>) -> fmt::Result {
        let s = self.seen;
        write!(f, "line {}: ", s.line)?;
        match s.wrong {
            Some(Wrong::CarriageReturn) => write!(f, "a carriage return"),
            Some(Wrong::Long) => write!(f, "more than {} digits", self.digits),
            Some(Wrong::Uppercase) => write!(f, "an uppercase digit"),
            Some(Wrong::Space) => write!(f, "a space"),
            Some(Wrong::Other) => write!(f, "a byte that is no digit"),
            Some(Wrong::Empty) => write!(f, "an empty line"),
            Some(Wrong::Short) | None => write!(f, "{} digits, not {}", s.column, self.digits),
        }
    }
}

pub fn tell(seen: Seen, digits: usize) {
    let line = Line { seen, digits };
    let _ = writeln!(StandardError, "{line}");
}
