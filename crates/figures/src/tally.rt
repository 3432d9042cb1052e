// The sums so far, kept in as few numbers as a row should touch.
ghost use Rattle.std.specs.Prelude.{◌≡◌, ◌<◌};
ghost use Rattle.rules.specs.Row.{kind_of};
ghost use Rattle.figures.specs.Tallied.{Weights, Fits, kinds, top, added, begun_by, plain_tally, sums_in};

use crate::weights::{KINDS, REGION, VALUE};
use rows::kind::FUNCTION;
use rules::sums::Sums;

// Lines, values and regions in one number, as in the weights: kept so, and no struct of three, so that one addition takes a row. Then the
// regions before the function that is open, and the most of those before it.
#[derive(Clone, Copy)]
pub struct Tally {
    pub all: u64,
    pub before: u64,
    pub most: u64,
}

// A row of this kind more, which opens no function.
pub fn add(by: &[u64; KINDS], kind: usize, t: Tally) -> Tally
    requires { (Weights by.now) × (kind < kinds) × (t.all < top) }
    ensures { result ≡ added (kind_of kind) t }
{
    Tally {
        all: t.all + by[kind],
        ..t
    }
}

// A function more: the one before it is told.
fn begin(by: &[u64; KINDS], t: Tally) -> Tally
    requires { (Weights by.now) × (Fits t) }
    ensures { result ≡ begun_by t }
{
    let before = t.all / REGION;
    Tally {
        all: t.all + by[1],
        before,
        most: t.most.max(before - t.before),
    }
}

// A row of 01.
pub fn plain(by: &[u64; KINDS], kind: usize, t: Tally) -> Tally
    requires { (Weights by.now) × (kind < kinds) × (Fits t) }
    ensures { result ≡ plain_tally kind t }
{
    if kind == FUNCTION as usize {
        return begin(by, t);
    }
    add(by, kind, t)
}

// The sums by themselves.
pub fn sums(t: Tally) -> Sums
    requires { Fits t }
    ensures { result ≡ sums_in t }
{
    let opened = t.all / REGION - t.before;
    Sums {
        lines: (t.all % VALUE) as u16,
        value: (t.all / VALUE % VALUE) as u16,
        opened: opened as u16,
        most: t.most.max(opened) as u16,
    }
}
