// Rows of the chain: each goes through `scan::open::step`, and into the buffer as long as it has room.
ghost use Rattle.std.specs.Prelude.{◌≡◌, ◌+◌, ◌≤◌, replicate};
ghost use Rattle.scan.specs.Standing.{Sane};
ghost use Rattle.rows.specs.Row.{six};
ghost use Rattle.given.specs.Through.{many_rows, stored, Through, OwnOk, BehindOk, SpansOk};
ghost use Rattle.rules.specs.Switch.{bare_row};

use crate::plan::Plan;
use rows::WIDTH;
use rows::kind::{ELSE, END};
use rows::row::Row;
use rules::kind::Kind;
use rules::refusal::Refusal;
use scan::open::{Standing, close, step, turn};

// Behind so many rows of the chain, where there is room.
pub fn store(row: Row, chained: usize, chain: &mut [u8])
    requires { chained ≤ many_rows }
    ensures { chain.new ≡ stored (six row) chained chain.old }
{
    if chained < chain.len() / WIDTH {
        row.write(chain, WIDTH * chained);
    }
}

// No else, or one.
fn elses(
    count: usize,
    s: Standing,
    parts: &mut [u8],
    chained: usize,
    chain: &mut [u8],
) -> Result<Standing, Refusal>
    requires sane { Sane s parts.old }
    requires chained_le_many_rows { chained ≤ many_rows }
    requires count_bound { count ≤ 1 }
    ensures { Through (replicate count (bare_row Kind.Else)) s parts.old parts.new chained chain.old chain.new result }
{
    if count == 0 {
        return Ok(s);
    }
    let after = turn(s, parts)?;
    store(Row::bare(ELSE), chained, chain);
    Ok(after)
}

// The row itself, or none.
fn own(
    count: usize,
    kind: Kind,
    row: Row,
    s: Standing,
    parts: &mut [u8],
    chained: usize,
    chain: &mut [u8],
) -> Result<Standing, Refusal>
    requires sane { Sane s parts.old }
    requires chained_le_many_rows { chained ≤ many_rows }
    requires count_bound { count ≤ 1 }
    ensures { OwnOk count kind (six row) s parts.old parts.new chained chain.old chain.new result }
{
    if count == 0 {
        return Ok(s);
    }
    let after = step(kind, s, parts)?;
    store(row, chained, chain);
    Ok(after)
}

// So many ends.
fn ends(
    count: usize,
    s: Standing,
    parts: &mut [u8],
    chained: usize,
    chain: &mut [u8],
) -> Result<Standing, Refusal>
    requires sane { Sane s parts.old }
    requires count_bound { chained + count ≤ many_rows }
    ensures { Through (replicate count (bare_row Kind.End)) s parts.old parts.new chained chain.old chain.new result }
{
    let mut here = s;
    for done in 0..count {
        here = close(here, parts)?;
        store(Row::bare(END), chained + done, chain);
    }
    Ok(here)
}

// The row itself, and the ends behind it.
fn behind(
    p: Plan,
    row: Row,
    s: Standing,
    parts: &mut [u8],
    chained: usize,
    chain: &mut [u8],
) -> Result<Standing, Refusal>
    requires sane { Sane s parts.old }
    requires own_bound { p.own ≤ 1 }
    requires ends_bound { chained + (p.own + p.ends) ≤ many_rows }
    ensures { BehindOk p (six row) s parts.old parts.new chained chain.old chain.new result }
{
    let kind = p.kind;
    let after = own(p.own, kind, row, s, parts, chained, chain)?;
    ends(p.ends, after, parts, chained + p.own, chain)
}

// The rows that a row stands for.
pub fn spans(
    p: Plan,
    row: Row,
    s: Standing,
    parts: &mut [u8],
    chained: usize,
    chain: &mut [u8],
) -> Result<Standing, Refusal>
    requires sane { Sane s parts.old }
    requires elses_bound { p.elses ≤ 1 }
    requires own_bound { p.own ≤ 1 }
    requires ends_bound { chained + (p.elses + (p.own + p.ends)) ≤ many_rows }
    ensures { SpansOk p (six row) s parts.old parts.new chained chain.old chain.new result }
{
    let after = elses(p.elses, s, parts, chained, chain)?;
    behind(p, row, after, parts, chained + p.elses, chain)
}

// The rows that a case stands for: an else where a case stands before it, and its if. Kept beside `spans`, as the quick path of a case.
pub fn case_spans(
    p: Plan,
    row: Row,
    s: Standing,
    parts: &mut [u8],
    chained: usize,
    chain: &mut [u8],
) -> Result<Standing, Refusal>
    requires sane { Sane s parts.old }
    requires elses_bound { p.elses ≤ 1 }
    requires own_value { (p.own ≡ 1) × (p.ends ≡ 0) × (p.kind ≡ Kind.If) }
    requires chained_bound { chained + 2 ≤ many_rows }
    ensures { SpansOk p (six row) s parts.old parts.new chained chain.old chain.new result }
{
    let after = elses(p.elses, s, parts, chained, chain)?;
    own(1, Kind::If, row, after, parts, chained + p.elses, chain)
}
