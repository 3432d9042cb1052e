// A linked table whose regions have their bases and whose rows have their values: what a line says of a row by these too.
ghost use Rattle.layout.specs.Number.{Based, Valued};

use crate::linked::Linked;
use crate::spot::{Spot, local};

#[derive(Clone, Copy)]
pub struct Numbered<'a> {
    pub linked: Linked<'a>,
    pub bases: &'a [u16],
    pub values: &'a [u16],
    pub ghost based: { Based linked.rows.now bases.now },
    pub ghost valued: { Valued linked.rows.now values.now },
}

impl Numbered<'_> {
    ghost use Rattle.std.specs.Prelude.{◌≡◌, ◌/◌, ◌<◌, length};
    ghost use Rattle.rules.specs.Row.{table_of};
    ghost use Rattle.rules.specs.Scan.{regions};
    ghost use Rattle.rules.specs.Value.{base};
    ghost use Rattle.layout.specs.Spot.{Inside, SpotIs, Head, end_of_body};

    // Where row i stands.
    pub fn spot_of(&self, i: usize) -> Spot
        requires { Inside self.now.linked.rows.now i }
        ensures { SpotIs self.now.linked.rows.now i result }
    {
        let here = self.linked.scope(i);
        Spot {
            r: local(here.region, here.body),
            e: self.values[i],
        }
    }

    // The base of the region that row i opens.
    pub fn base_of(&self, i: usize) -> u16
        requires { i < length self.now.linked.rows.now / 6 }
        ensures { result ≡ base (table_of self.now.linked.rows.now) (regions (table_of self.now.linked.rows.now) i) }
    {
        let here = self.linked.scope(i);
        self.bases[usize::from(here.opened)]
    }

    // What the body of the function that row i opens ends at.
    pub fn end_value(&self, i: usize) -> u16
        requires { Head self.now.linked.rows.now i }
        ensures { result ≡ end_of_body (table_of self.now.linked.rows.now) i }
    {
        let last = self.spot_of(usize::from(self.linked.ends[i]));
        last.e + 1
    }
}
