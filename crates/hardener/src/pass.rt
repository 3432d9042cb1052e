// One pass over an accepted table for two uses: its lines are kept, one behind the other, or some rows at a time are made in a scratch and
// compared with given bytes. Its words are in its own frame, which begins after the table is checked: so it is never compiled into a caller.
ghost use Rattle.std.specs.Prelude.{◌≡◌, true, length};
ghost use Rattle.rules.specs.Verdict.{Accepted};
ghost use Rattle.rules.specs.Row.{table_of};
ghost use Rattle.rules.specs.Check.{verdict_of};
ghost use Rattle.rules.specs.Links.{Links};
ghost use Rattle.hardener.specs.Pass.{Fit, MadeIs, PassedIs};

use crate::uses::Use;
use layout::linked::Linked;
use layout::numbered::Numbered;
use layout::row;
use layout::scope::{MAP, Scope};
use line::Line;
use rules::limits::{FUNCTIONS, ROWS};

// Makes the lines of all rows: whether they agree with the given ones.
fn make<U: Use>(table: &Numbered, used: &U, out: &mut [u8]) -> bool
    requires { Fit U.comparing table.now.linked.rows.now (U.given used.now) out.old }
    ensures { MadeIs U.comparing table.now.linked.rows.now (U.given used.now) out.old out.new result }
{
    let n = table.linked.rows.len() / row::WIDTH;
    let mut from = 0;
    // Kept as a while: where all rows are kept, the first batch is the last.
    while from < n {
        let count = used.batch(from, n);
        emit::emit_rows(table, from, count, out);
        let first = Line::WIDTH * usize::from(table.linked.line_of(from));
        let past = Line::WIDTH * usize::from(table.linked.line_of(from + count));
        if !used.agrees(out, first, past) {
            return false;
        }
        from += count;
    }
    true
}

// Hardens an accepted table whose links are known, to the front of out, where it fits there; or tells whether it hardens to given
// bytes. The answer is the number of bytes of its lines; none where the output is too short, or where the given bytes are others.
#[inline(never)]
pub fn pass<U: Use>(
    rows: &[u8],
    ends: &[u16; ROWS],
    elses: &[u16; ROWS],
    heads: &[u16; FUNCTIONS],
    used: &U,
    out: &mut [u8],
) -> Option<usize>
    requires rows_value { (verdict_of rows.now ≡ Accepted) × (Links (table_of rows.now) ends.now elses.now heads.now) }
    requires out_len { U.comparing ≡ true → length out.old ≡ 1280 }
    ensures { PassedIs U.comparing rows.now (U.given used.now) out.old out.new result }
{
    let mut map = [Scope::OUTERMOST; MAP];
    let mut bases = [0u16; ROWS + 1];
    let mut values = [0u16; ROWS];
    layout::lay_out(rows, &mut map, &mut bases, &mut values);
    let linked = Linked {
        rows,
        map: &map,
        ends,
        elses,
        heads,
    };
    let size = Line::WIDTH * usize::from(linked.line_of(rows.len() / row::WIDTH));
    if !used.fits(size, out.len()) {
        return None;
    }
    let table = Numbered {
        linked,
        bases: &bases,
        values: &values,
    };
    if make(&table, used, out) {
        return Some(size);
    }
    None
}
