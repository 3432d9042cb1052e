// Values: what each row takes, the bases of the regions, and each row's value.
ghost use Rattle.std.specs.Prelude.{◌≡◌, ℕ, ◌/◌, ◌≤◌, ◌<◌, length};
ghost use Rattle.rules.specs.Limits.{max_rows};
ghost use Rattle.rules.specs.Verdict.{Accepted};
ghost use Rattle.rules.specs.Row.{table_of};
ghost use Rattle.rules.specs.Check.{verdict_of};
ghost use Rattle.layout.specs.Scope.{map_scopes, Stands, Surveyed};
ghost use Rattle.layout.specs.Number.{takes_at, value_of, took_before, Took, Spent, Spends, sums, Summed, Based, Valued};

use crate::scope::Scope;
use crate::{row, scope};
use rules::kind::Kind;

// What row i takes in its region.
fn take(rows: &[u8], i: usize, here: Scope) -> u16
    requires { (Stands rows.now i here) × (i < length rows.now / 6) }
    ensures { (result ≡ takes_at (table_of rows.now) i) × (result ≤ 2) }
{
    match row::kind(rows, i) {
        Kind::Do | Kind::Break | Kind::Continue => 1,
        Kind::If | Kind::Loop => 2,
        // An arm of its own, so that an edit of its number leaves the others' answers as they are.
        Kind::Call => 2,
        Kind::End => u16::from(here.region == here.body),
        Kind::Function | Kind::Else | Kind::Unknown => 0,
    }
}

// Adds what row i takes to the word of its region, and keeps in word i of `took` what the rows before it took there.
fn spend(rows: &[u8], i: usize, here: Scope, spent: &mut [u16], took: &mut [u16])
    requires stands { (Stands rows.now i here) × (i < length rows.now / 6) × (i < length took.old) }
    requires spent { Spent rows.now spent.old i }
    ensures { Spends rows.now i spent.new took.old took.new }
{
    let g = usize::from(here.region);
    let before = spent[g];
    took[i] = before;
    spent[g] = before + take(rows, i, here);
}

// Fills the map, and adds up what all rows take, in each region. One pass: a sum waits for the one before it, and the survey fills
// that time.
pub fn survey_and_spend(rows: &[u8], map: &mut [Scope], spent: &mut [u16], took: &mut [u16])
    requires rows_value { (verdict_of rows.now ≡ Accepted) × (map_scopes ≤ length map.old) }
    requires spent { (Spent rows.now spent.old 0) × (max_rows ≤ length took.old) }
    ensures surveyed { Surveyed rows.now map.new }
    ensures spent_2 { (Spent rows.now spent.new (length rows.now / 6)) × (Took rows.now took.new (length rows.now / 6)) }
{
    let n = rows.len() / row::WIDTH;
    let mut here = Scope::OUTERMOST;
    for i in 0..n {
        map[i] = here;
        spend(rows, i, here, spent, took);
        here = scope::after(rows, map, i, here);
    }
    map[n] = here;
}

// A running sum of 1 and the sizes, each added once, in the order the regions open: a region's size is 1 and what its rows take. Each
// word becomes the sum before it.
fn sum(words: &mut [u16])
    requires { (g : ℕ) → g ≤ length words.old → sums words.old g < 65536 }
    ensures { Summed words.old words.new (length words.old) }
{
    let mut total: u16 = 1;
    for word in words {
        let after = total + (*word + 1);
        *word = total;
        total = after;
    }
}

// The bases of all regions: word g, which was what all rows took in region g, becomes the base of region g.
pub fn region_bases(rows: &[u8], map: &[Scope], words: &mut [u16])
    requires { (Surveyed rows.now map.now) × (Spent rows.now words.old (length rows.now / 6)) }
    ensures { Based rows.now words.new }
{
    let n = rows.len() / row::WIDTH;
    let end = scope::stand(rows, map, n);
    let count = usize::from(end.opened) + 1;
    sum(&mut words[..count]);
}

// The value of row i: the base of its region and what the rows before it took there.
fn value(rows: &[u8], map: &[Scope], bases: &[u16], i: usize, took: u16) -> u16
    requires surveyed { (Surveyed rows.now map.now) × (i < length rows.now / 6) }
    requires based { (Based rows.now bases.now) × (took ≡ took_before (table_of rows.now) i) }
    ensures { result ≡ value_of (table_of rows.now) i }
{
    let here = scope::stand(rows, map, i);
    let g = usize::from(here.region);
    bases[g] + took
}

// The values of all rows: word i, which was what the rows before row i took in its region, becomes the value of row i.
pub fn row_values(rows: &[u8], map: &[Scope], bases: &[u16], values: &mut [u16])
    requires surveyed { (Surveyed rows.now map.now) × (Based rows.now bases.now) × (max_rows ≤ length values.old) }
    requires took { Took rows.now values.old (length rows.now / 6) }
    ensures { Valued rows.now values.new }
{
    let n = rows.len() / row::WIDTH;
    for i in 0..n {
        values[i] = value(rows, map, bases, i, values[i]);
    }
}
