// An accepted table with the scope of each of its rows and its links: what a line says of a row by these alone.
ghost use Rattle.layout.specs.Scope.{Surveyed};
ghost use Rattle.layout.specs.Spot.{Ends, Elses, Heads};

use crate::scope::Scope;
use crate::spot::local;
use crate::{row, scope};
use rules::kind::Kind;

#[derive(Clone, Copy)]
pub struct Linked<'a> {
    pub rows: &'a [u8],
    // The scope of each row and of the end of the table.
    pub map: &'a [Scope],
    // The end row of what a row opens, the else row of an if or 0, the row of a function.
    pub ends: &'a [u16],
    pub elses: &'a [u16],
    pub heads: &'a [u16],
    pub ghost surveyed: { Surveyed rows.now map.now },
    pub ghost ends_known: { Ends rows.now ends.now },
    pub ghost elses_known: { Elses rows.now elses.now },
    pub ghost heads_known: { Heads rows.now heads.now },
}

impl Linked<'_> {
    ghost use Rattle.std.specs.Prelude.{◌≡◌, suc, ◌/◌, ◌≤◌, ◌<◌, length};
    ghost use Rattle.rules.specs.Row.{table_of, kind_at, operands_at};
    ghost use Rattle.rules.specs.declared.kind.Kind.{Kind};
    ghost use Rattle.rules.specs.Scan.{end_of};
    ghost use Rattle.rules.specs.Harden.{line_of};
    ghost use Rattle.layout.specs.Scope.{Stands};
    ghost use Rattle.layout.specs.Spot.{Inside, InLoop, Opens, Grows, child_of_lem, in_body, is_loop_lem, OpenerIs, LoopIs, CalleeIs};

    // The scope of row i, or of the end of the table.
    pub fn scope(&self, i: usize) -> Scope
        requires { i ≤ length self.now.rows.now / 6 }
        ensures { Stands self.now.rows.now i result }
    {
        scope::stand(self.rows, self.map, i)
    }

    // The region that row i opens, by its number in the function.
    pub fn child_of(&self, i: usize) -> u8
        requires { Grows self.now.rows.now i }
        ensures { result ≡ child_of_lem (table_of self.now.rows.now) i }
    {
        let here = self.scope(i);
        local(here.opened, here.body)
    }

    // The number of row i's first line.
    pub fn line_of(&self, i: usize) -> u16
        requires { i ≤ length self.now.rows.now / 6 }
        ensures { result ≡ line_of (table_of self.now.rows.now) i }
    {
        let here = self.scope(i);
        here.line
    }

    // The number of the first line of the row after row i.
    pub fn line_after(&self, i: usize) -> u16
        requires { i < length self.now.rows.now / 6 }
        ensures { result ≡ line_of (table_of self.now.rows.now) (suc i) }
    {
        self.line_of(i + 1)
    }

    // The number of the line past all that row i opens.
    pub fn line_past(&self, i: usize) -> u16
        requires { Opens self.now.rows.now i }
        ensures { result ≡ line_of (table_of self.now.rows.now) (suc (end_of (table_of self.now.rows.now) i)) }
    {
        self.line_after(usize::from(self.ends[i]))
    }

    // Whether row i stands in its function's body and in no other part.
    pub fn in_body(&self, i: usize) -> bool
        requires { Inside self.now.rows.now i }
        ensures { result ≡ in_body (table_of self.now.rows.now) i }
    {
        let here = self.scope(i);
        here.region == here.body
    }

    // Whether row i is a loop's.
    pub fn is_loop(&self, i: usize) -> bool
        requires { i < length self.now.rows.now / 6 }
        ensures { result ≡ is_loop_lem (kind_at (table_of self.now.rows.now) i) }
    {
        matches!(row::kind(self.rows, i), Kind::Loop)
    }

    // The row that opened the part that row i stands in.
    pub fn opener_of(&self, i: usize) -> usize
        requires { Inside self.now.rows.now i }
        ensures { OpenerIs self.now.rows.now i result }
    {
        let here = self.scope(i);
        usize::from(here.opener)
    }

    // The row of the innermost loop around row i. As short as `opener_of`, by another field.
    pub fn loop_of(&self, i: usize) -> usize
        requires { InLoop self.now.rows.now i }
        ensures { LoopIs self.now.rows.now i result }
    {
        let here = self.scope(i);
        usize::from(here.repeat)
    }

    // The row of the function that row i calls.
    pub fn callee_of(&self, i: usize) -> usize
        requires { (i < length self.now.rows.now / 6) × (kind_at (table_of self.now.rows.now) i ≡ Kind.Call) }
        ensures { CalleeIs self.now.rows.now (operands_at (table_of self.now.rows.now) i).n result }
    {
        let f = row::operands_of(self.rows, i);
        usize::from(self.heads[usize::from(f.n)])
    }
}
