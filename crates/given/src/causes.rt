// Causes 3, 4 and 11 of a row as given.
ghost use Rattle.std.specs.Prelude.{◌≡◌, ◌≤◌};
ghost use Rattle.rules.specs.Limits.{max_constructs};
ghost use Rattle.rules.specs.Refusal.{refuse_if_lem, and_then};
ghost use Rattle.given.specs.Things.{marked_cases};
ghost use Rattle.given.specs.Plan.{stray_in_lem, stray_by, cause_of};

use crate::sort::Sort;
use crate::things::{among, cases_of};
use rules::kind::Kind;
use rules::limits::CONSTRUCTS;
use rules::refusal::Refusal;

fn refuse_if(holds: bool, r: Refusal) -> Result<(), Refusal>
    ensures { result ≡ refuse_if_lem holds r }
{
    if holds {
        return Err(r);
    }
    Ok(())
}

// The first of two causes that holds.
fn refuse_first(one: bool, r: Refusal, other: bool, s: Refusal) -> Result<(), Refusal>
    ensures { result ≡ and_then (refuse_if_lem one r) (refuse_if_lem other s) }
{
    if one {
        return Err(r);
    }
    refuse_if(other, s)
}

// A row of 01 straight in a switch, before its first part where `fresh`.
fn stray_in(kind: Kind, fresh: bool) -> bool
    ensures { result ≡ stray_in_lem kind fresh }
{
    match kind {
        Kind::Else => true,
        Kind::End => false,
        _ => fresh,
    }
}

fn plain_stray(kind: Kind, top: u8) -> bool
    ensures { result ≡ stray_by (Sort.Plain kind) top 0 }
{
    top != 0 && stray_in(kind, top == 1)
}

fn switch_stray(top: u8, count: usize) -> bool
    ensures { result ≡ stray_by Sort.Switch top count }
{
    count == 0 || top == 1
}

pub fn case_cause(
    number: u16,
    top: u8,
    cases: usize,
    used: &[u16; CONSTRUCTS + 1],
) -> Result<(), Refusal>
    requires { (cases ≤ max_constructs) × (marked_cases top ≤ cases) }
    ensures { result ≡ cause_of Sort.Case number top 0 cases used.now }
{
    let again = among(number, used, cases, cases_of(top));
    refuse_first(
        top % 2 == 0,
        Refusal::Misplaced,
        again,
        Refusal::RepeatedCase,
    )
}

// Causes 3, 4 and 11 of the row itself.
pub fn cause(
    sort: Sort,
    number: u16,
    top: u8,
    count: usize,
    cases: usize,
    used: &[u16; CONSTRUCTS + 1],
) -> Result<(), Refusal>
    requires { (cases ≤ max_constructs) × (marked_cases top ≤ cases) }
    ensures { result ≡ cause_of sort number top count cases used.now }
{
    match sort {
        Sort::Wrong => Err(Refusal::WrongField),
        Sort::Plain(kind) => refuse_if(plain_stray(kind, top), Refusal::Misplaced),
        Sort::Switch => refuse_if(switch_stray(top, count), Refusal::Misplaced),
        Sort::Case => case_cause(number, top, cases, used),
        Sort::Default => refuse_if(top % 2 == 0, Refusal::Misplaced),
    }
}
