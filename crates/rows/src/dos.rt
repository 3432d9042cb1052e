// The dos that stand one after the other: most rows of a program are dos, and this loop is quicker than a construct at a time.
ghost use Rattle.std.specs.Prelude.{◌≡◌, ◌<◌, length};
ghost use Rattle.rules.specs.declared.kind.Kind.{Kind};
ghost use Rattle.rows.specs.First.{first_kind_lem};
ghost use Rattle.rows.specs.Dos.{is_do_lem, DosAre};

use crate::WIDTH;
use crate::first::operands;
use crate::fits::do_uses;
use crate::kind::DO;

// The row that the bytes begin with is a do, and its fields are as a do uses them.
fn is_do(rows: &[u8]) -> bool
    requires { 5 < length rows.now }
    ensures { result ≡ is_do_lem (first_kind_lem rows.now) }
{
    let o = operands(rows);
    rows[0] == DO && do_uses(o)
}

// The dos that the bytes begin with, where they begin with one.
pub fn dos(rows: &[u8]) -> usize
    requires { (5 < length rows.now) × (first_kind_lem rows.now ≡ Kind.Do) }
    ensures { DosAre rows.now result }
{
    let count = rows.len() / WIDTH;
    for at in 1..count {
        let from = WIDTH * at;
        if !is_do(&rows[from..]) {
            return at;
        }
    }
    count
}
