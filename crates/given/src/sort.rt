// What a row as given is: one of 01's rows, or one of a switch's own.
ghost use Rattle.std.specs.Prelude.{◌≡◌, ◌<◌, length};
ghost use Rattle.rules.specs.Row.{row_in};
ghost use Rattle.rules.specs.Switch.{as_is};
ghost use Rattle.given.specs.Sort.{own_sort, sort_of_lem, first_given, is_switch_lem, is_case_lem};

use rows::first::{fits, fits_switch, kind};
use rows::kind::{CASE, DEFAULT, SWITCH};
use rules::kind::Kind;

#[derive(Clone, Copy)]
pub enum Sort {
    // A kind that is none, or a field that is wrong. Kept as a case: it is one of 02's own table, and the definitions name it (own_sort, cause_of).
    Wrong,
    Plain(Kind),
    Switch,
    Case,
    Default,
}

fn own(fit: bool, sort: Sort) -> Sort
    ensures { result ≡ own_sort fit sort }
{
    if fit {
        return sort;
    }
    Sort::Wrong
}

// A row of 01, where its kind is one.
fn plain(rows: &[u8]) -> Sort
    requires { 5 < length rows.now }
    ensures { result ≡ sort_of_lem (as_is (row_in rows.now 0)) }
{
    let named = kind(rows);
    own(fits(named, rows), Sort::Plain(named))
}

// The row that the bytes begin with.
pub fn sort_of(rows: &[u8]) -> Sort
    requires { 5 < length rows.now }
    ensures { result ≡ sort_of_lem (first_given rows.now) }
{
    let first = rows[0];
    match first {
        SWITCH => own(fits_switch(rows), Sort::Switch),
        // A case uses n alone, as a call does, and a default nothing, as an else does.
        CASE => own(fits(Kind::Call, rows), Sort::Case),
        DEFAULT => own(fits(Kind::Else, rows), Sort::Default),
        _ => plain(rows),
    }
}

pub fn is_switch(sort: Sort) -> bool
    ensures { result ≡ is_switch_lem sort }
{
    matches!(sort, Sort::Switch)
}

pub fn is_case(sort: Sort) -> bool
    ensures { result ≡ is_case_lem sort }
{
    matches!(sort, Sort::Case)
}
