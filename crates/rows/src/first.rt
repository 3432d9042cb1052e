// The row that some bytes begin with: its kind, whether its fields fit, what it calls.
ghost use Rattle.std.specs.Prelude.{◌≡◌, ◌<◌, length};
ghost use Rattle.rules.specs.Row.{row_in, fields_fit_lem};
ghost use Rattle.rules.specs.Given.{uses_switch_lem};
ghost use Rattle.rows.specs.First.{first_kind_lem, calls_beyond_lem};

use crate::fits::{fields_fit, uses_switch};
use crate::kind::is_call;
use rules::bytes::word;
use rules::kind::Kind;
use rules::operands::Operands;

// The kind that the bytes begin with, whatever the fields.
#[tactic(auto, unfolding(rules::specs::Row::row_in))]
pub fn kind(rows: &[u8]) -> Kind
    requires { 5 < length rows.now }
    ensures { result ≡ (row_in rows.now 0).kind }
{
    Kind::from(rows[0])
}

// What the row that the bytes begin with has beside its kind.
#[tactic(auto, unfolding(rules::specs::Row::row_in))]
pub fn operands(rows: &[u8]) -> Operands
    requires { 5 < length rows.now }
    ensures { result ≡ (row_in rows.now 0).operands }
{
    Operands {
        op: rows[1],
        p: rows[2],
        q: rows[3],
        n: word(rows, 4),
    }
}

// The fields of the row that the bytes begin with are as `kind` uses them.
pub fn fits(kind: Kind, rows: &[u8]) -> bool
    requires { 5 < length rows.now }
    ensures { result ≡ fields_fit_lem kind (row_in rows.now 0).operands }
{
    fields_fit(kind, operands(rows))
}

// The fields of the row that the bytes begin with are as a switch uses them.
pub fn fits_switch(rows: &[u8]) -> bool
    requires { 5 < length rows.now }
    ensures { result ≡ uses_switch_lem (row_in rows.now 0).operands }
{
    uses_switch(operands(rows))
}

// The kind of the row that the bytes begin with, or Unknown where a field is wrong.
#[tactic(auto, unfolding(crate::specs::First::proper_kind))]
pub fn first_kind(rows: &[u8]) -> Kind
    requires { 5 < length rows.now }
    ensures { result ≡ first_kind_lem rows.now }
{
    let named = kind(rows);
    if fits(named, rows) {
        named
    } else {
        Kind::Unknown
    }
}

// The row that the bytes begin with calls a function that isn't one of `count`.
#[tactic(auto, unfolding(crate::specs::First::calls_beyond_lem, rules::specs::Row::row_in))]
pub fn calls_beyond(rows: &[u8], count: usize) -> bool
    requires { 5 < length rows.now }
    ensures { result ≡ calls_beyond_lem count (row_in rows.now 0) }
{
    is_call(kind(rows)) && usize::from(word(rows, 4)) >= count
}
