// What a row does: the rows of the chain that it stands for, and what is open after it.
ghost use Rattle.std.specs.Prelude.{◌≡◌, Bool, ◌+◌, ◌-◌, ◌≤◌};
ghost use Rattle.rules.specs.Limits.{max_rows, max_constructs};
ghost use Rattle.rules.specs.Scan.{is_end_lem};
ghost use Rattle.rules.specs.Links.{is_opening};
ghost use Rattle.given.specs.Things.{most_mark};
ghost use Rattle.given.specs.Plan.{count_after_lem, elses_by_lem, closes_switch_lem, closing_plan, plain_plan, plan_of};

use crate::sort::Sort;
use crate::things::cases_of;
use rules::kind::Kind;

// Elses, then the row itself or the if of a case, then ends; and what is stored of the things: a mark in a slot, and how many are open.
#[derive(Clone, Copy)]
pub struct Plan {
    pub elses: usize,
    pub own: usize,
    pub ends: usize,
    pub kind: Kind,
    pub slot: usize,
    pub mark: u8,
    pub count: usize,
    pub cases: usize,
}

fn opens(kind: Kind) -> bool
    ensures { result ≡ is_opening kind }
{
    matches!(kind, Kind::Function | Kind::If | Kind::Loop)
}

// A part of a switch begins with an else where a case stands before it.
fn elses_by(top: u8) -> usize
    ensures { result ≡ elses_by_lem top }
{
    if top > 2 {
        return 1;
    }
    0
}

fn is_end(kind: Kind) -> bool
    ensures { result ≡ is_end_lem kind }
{
    matches!(kind, Kind::End)
}

// The open things after a row of 01 that is no end of a switch.
fn count_after(kind: Kind, count: usize) -> usize
    requires { count ≤ max_rows }
    ensures { result ≡ count_after_lem kind count }
{
    if opens(kind) {
        return count + 1;
    }
    if is_end(kind) {
        return count.saturating_sub(1);
    }
    count
}

fn closes_switch(kind: Kind, top: u8) -> bool
    ensures { result ≡ closes_switch_lem kind top }
{
    top != 0 && is_end(kind)
}

// The row closes a switch with so many cases, and stands for an end for each.
fn closing(ends: usize, count: usize, cases: usize) -> Plan
    ensures { result ≡ closing_plan ends count cases }
{
    Plan {
        elses: 0,
        own: 0,
        ends,
        kind: Kind::End,
        slot: count,
        mark: 0,
        count: count.saturating_sub(1),
        cases: cases.saturating_sub(ends),
    }
}

// A row of 01 stands for itself, but for the end of a switch. Where it opens nothing, the slot behind the last thing is stored to all the same.
fn plain(kind: Kind, top: u8, count: usize, cases: usize) -> Plan
    requires { count ≤ max_rows }
    ensures { result ≡ plain_plan kind top count cases }
{
    if closes_switch(kind, top) {
        return closing(cases_of(top), count, cases);
    }
    Plan {
        elses: 0,
        own: 1,
        ends: 0,
        kind,
        slot: count,
        mark: 0,
        count: count_after(kind, count),
        cases,
    }
}

// What a row does where the innermost thing has the mark `top`.
pub fn plan_of(sort: Sort, top: u8, count: usize, cases: usize) -> Plan
    requires { (count ≤ max_rows) × (cases ≤ max_constructs) × (top ≤ most_mark) }
    ensures { result ≡ plan_of sort top count cases }
{
    match sort {
        Sort::Wrong => closing(0, count, cases),
        Sort::Plain(kind) => plain(kind, top, count, cases),
        Sort::Switch => Plan {
            elses: 0,
            own: 0,
            ends: 0,
            kind: Kind::End,
            slot: count,
            mark: 1,
            count: count + 1,
            cases,
        },
        Sort::Case => Plan {
            elses: elses_by(top),
            own: 1,
            ends: 0,
            kind: Kind::If,
            slot: count.saturating_sub(1),
            mark: top + 2,
            count,
            cases: cases + 1,
        },
        Sort::Default => Plan {
            elses: elses_by(top),
            own: 0,
            ends: 0,
            kind: Kind::End,
            slot: count.saturating_sub(1),
            mark: top + 1,
            count,
            cases,
        },
    }
}
