// How much the hardened table of a source table takes (02, No. 2), by sums over its rows: no table is written and no row is looked at
// twice.
#![tactic(auto)]

ghost use Rattle.std.specs.Prelude.{◌≡◌};
ghost use Rattle.rules.specs.Verdict.{Accepted};
ghost use Rattle.rules.specs.Row.{table_of};
ghost use Rattle.rules.specs.Switch.{chain_bytes};
ghost use Rattle.rules.specs.Given.{given_verdict};
ghost use Rattle.rules.specs.Figures.{sums_of};
ghost use Rattle.figures.specs.Tallied.{Weights, Fits, else_tally, part_tally, row_tally};

pub mod steps;
pub mod tally;
mod weights;

use rows::WIDTH;
use rows::kind::{CASE, DEFAULT, ELSE, IF, SWITCH};
use rules::sums::Sums;
use tally::{Tally, add, plain, sums};
use weights::{KINDS, weights};

// A part of a switch begins with an else, but the first.
fn otherwise(by: &[u64; KINDS], first: bool, t: Tally) -> Tally
    requires { (Weights by.now) × (Fits t) }
    ensures { result ≡ else_tally first t }
{
    if first {
        return t;
    }
    add(by, ELSE as usize, t)
}

// A switch's own row: it is none itself, and a case is an if.
fn part(by: &[u64; KINDS], byte: u8, first: bool, t: Tally) -> Tally
    requires { (Weights by.now) × (Fits t) }
    ensures { result ≡ part_tally byte first t }
{
    match byte {
        CASE => add(by, IF as usize, otherwise(by, first, t)),
        DEFAULT => otherwise(by, first, t),
        _ => t,
    }
}

// A row as given, by its first byte; `first` where the row before it opens a switch.
fn row(by: &[u64; KINDS], byte: u8, first: bool, t: Tally) -> Tally
    requires { (Weights by.now) × (Fits t) }
    ensures { result ≡ row_tally byte first t }
{
    if byte < SWITCH {
        return plain(by, byte as usize, t);
    }
    part(by, byte, first, t)
}

// The sums over the chain of an accepted table.
pub fn count(rows: &[u8]) -> Sums
    requires { given_verdict rows.now ≡ Accepted }
    ensures { result ≡ sums_of (table_of (chain_bytes rows.now)) }
{
    let by = weights();
    let mut t = Tally {
        all: 0,
        before: 0,
        most: 0,
    };
    let mut first = false;
    for at in 0..rows.len() / WIDTH {
        let byte = rows[WIDTH * at];
        t = row(&by, byte, first, t);
        first = byte == SWITCH;
    }
    sums(t)
}
