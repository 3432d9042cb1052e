// Where each row of an accepted table stands, which bases its regions have, and which value each row has.
#![tactic(auto)]

ghost use Rattle.std.specs.Prelude.{◌≡◌, ◌≤◌, length};
ghost use Rattle.layout.specs.Scope.{map_scopes};
ghost use Rattle.rules.specs.Limits.{max_rows};
ghost use Rattle.rules.specs.Verdict.{Accepted};
ghost use Rattle.rules.specs.Check.{verdict_of};
ghost use Rattle.layout.specs.Layout.{Laid};
ghost use Rattle.layout.specs.Number.{Spent};

use crate::scope::Scope;

pub mod linked;
pub mod number;
pub mod numbered;
pub mod row;
pub mod scope;
pub mod spot;

// Lays a table out: the map of its rows' scopes, the bases of its regions, the values of its rows. The words that become the bases
// must be 0 before: what the rows take is added up in them.
pub fn lay_out(rows: &[u8], map: &mut [Scope], bases: &mut [u16], values: &mut [u16])
    requires rows_value { verdict_of rows.now ≡ Accepted }
    requires map_scopes_in_bounds { (map_scopes ≤ length map.old) × (Spent rows.now bases.old 0) × (max_rows ≤ length values.old) }
    ensures { Laid rows.now map.new bases.new values.new }
{
    number::survey_and_spend(rows, map, bases, values);
    number::region_bases(rows, map, bases);
    number::row_values(rows, map, bases, values);
}
