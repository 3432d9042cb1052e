// The walkers: a sequence of constructs, and the constructs that open a part.
ghost use Rattle.std.specs.Prelude.{◌≡◌, ◌+◌, ◌*◌, ◌≤◌, ◌<◌, length};
ghost use Rattle.rules.specs.Limits.{max_rows, max_constructs};
ghost use Rattle.rules.specs.Row.{row_width};
ghost use Rattle.rows.specs.First.{first_kind_lem};
ghost use Rattle.walk.specs.Walked.{fields_verdict, SeqOk, StepOk, RestOk};

use crate::answer::{Rest, Seq, Step, jump};
use crate::limit::{full, no_region};
use crate::link::{RowLinks, link};
use rows::dos::dos;
use rows::first::{fits, kind};
use rows::{LAST, WIDTH};
use rules::kind::Kind;
use rules::refusal::Refusal;

// The rows from row `base` on, up to the end or else row of the part that they stand in.
#[cycle(walker)]
pub fn sequence(
    rows: &[u8],
    base: usize,
    depth: usize,
    opened: usize,
    in_loop: bool,
    links: &mut RowLinks,
) -> Result<Seq, Refusal>
    requires rows_bound { row_width * base + length rows.now ≤ row_width * max_rows }
    ensures { SeqOk rows.now base depth opened in_loop links.old.ends links.old.elses links.new.ends links.new.elses result }
{
    // Kept as a `while`: a construct is as many rows long as `construct` tells, so no iterator's step is known before.
    let mut at = 0;
    let mut regions = opened;
    while WIDTH * at + LAST < rows.len() {
        let from = WIDTH * at;
        let step = construct(&rows[from..], base + at, depth, regions, in_loop, links)?;
        match step {
            Step::EndHere => return Ok(Seq::AtEnd(at, regions)),
            Step::ElseHere => return Ok(Seq::AtElse(at, regions)),
            Step::Past(n, o) => {
                at += n;
                regions = o;
            }
        }
    }
    Err(Refusal::Misplaced)
}

// The fields of the row that the bytes begin with are as `kind` uses them, or the row is turned away.
fn fields(kind: Kind, rows: &[u8]) -> Result<(), Refusal>
    requires { 5 < length rows.now }
    ensures { result ≡ fields_verdict kind rows.now }
{
    if fits(kind, rows) {
        return Ok(());
    }
    Err(Refusal::WrongField)
}

// The construct that row `base` begins. Each arm tests the fields for its own kind, so that there is one jump by the kind.
#[cycle(walker)]
fn construct(
    rows: &[u8],
    base: usize,
    depth: usize,
    opened: usize,
    in_loop: bool,
    links: &mut RowLinks,
) -> Result<Step, Refusal>
    requires rows_bound { row_width * base + length rows.now ≤ row_width * max_rows }
    requires in_bounds { 5 < length rows.now }
    ensures { StepOk rows.now base depth opened in_loop links.old.ends links.old.elses links.new.ends links.new.elses result }
{
    match kind(rows) {
        Kind::Function => fields(Kind::Function, rows).and(Err(Refusal::Misplaced)),
        Kind::Do => {
            fields(Kind::Do, rows)?;
            Ok(Step::Past(dos(rows), opened))
        }
        Kind::If => {
            fields(Kind::If, rows)?;
            if_part(rows, base, depth, opened, in_loop, links)
        }
        Kind::Else => fields(Kind::Else, rows).and(Ok(Step::ElseHere)),
        Kind::Loop => {
            fields(Kind::Loop, rows)?;
            loop_part(rows, base, depth, opened, in_loop, links)
        }
        Kind::End => fields(Kind::End, rows).and(Ok(Step::EndHere)),
        Kind::Break => fields(Kind::Break, rows).and(jump(opened, in_loop)),
        Kind::Continue => fields(Kind::Continue, rows).and(jump(opened, in_loop)),
        Kind::Call => fields(Kind::Call, rows).and(Ok(Step::Past(1, opened))),
        Kind::Unknown => Err(Refusal::WrongField),
    }
}

// The if in row `base`. A function beside `loop_part`: made one, the walkers take more stack (docs/DECISIONS.md).
#[cycle(walker)]
fn if_part(
    rows: &[u8],
    base: usize,
    depth: usize,
    opened: usize,
    in_loop: bool,
    links: &mut RowLinks,
) -> Result<Step, Refusal>
    requires rows_bound { row_width * base + length rows.now ≤ row_width * max_rows }
    requires in_bounds { (5 < length rows.now) × (first_kind_lem rows.now ≡ Kind.If) }
    ensures { StepOk rows.now base depth opened in_loop links.old.ends links.old.elses links.new.ends links.new.elses result }
{
    if full(depth, opened) {
        return Err(Refusal::TooManyParts);
    }
    link(&mut links.elses, base, 0);
    let ended = sequence(
        &rows[WIDTH..],
        base + 1,
        depth + 1,
        opened + 1,
        in_loop,
        links,
    )?;
    match ended {
        Seq::AtEnd(n, o) => {
            link(&mut links.ends, base, base + 1 + n);
            Ok(Step::Past(n + 2, o))
        }
        Seq::AtElse(n, o) => {
            let from = WIDTH * (n + 1);
            let (k, p) = else_part(&rows[from..], base + 1 + n, base, depth, o, in_loop, links)?;
            Ok(Step::Past(n + 1 + k, p))
        }
    }
}

// The rest of the if in row `base`, from its else row `row` on.
#[cycle(walker)]
fn else_part(
    rows: &[u8],
    row: usize,
    base: usize,
    depth: usize,
    opened: usize,
    in_loop: bool,
    links: &mut RowLinks,
) -> Result<Rest, Refusal>
    requires rows_bound { (row_width * row + length rows.now ≤ row_width * max_rows) × (base < row) }
    requires depth_bound { depth < max_constructs }
    requires in_bounds { 5 < length rows.now }
    ensures { RestOk rows.now row base depth opened in_loop links.old.ends links.old.elses links.new.ends links.new.elses result }
{
    if no_region(opened) {
        return Err(Refusal::TooManyParts);
    }
    link(&mut links.elses, base, row);
    let ended = sequence(
        &rows[WIDTH..],
        row + 1,
        depth + 1,
        opened + 1,
        in_loop,
        links,
    )?;
    match ended {
        Seq::AtElse(_, _) => Err(Refusal::Misplaced),
        Seq::AtEnd(n, o) => {
            link(&mut links.ends, base, row + 1 + n);
            Ok((n + 2, o))
        }
    }
}

// The loop in row `base`.
#[cycle(walker)]
fn loop_part(
    rows: &[u8],
    base: usize,
    depth: usize,
    opened: usize,
    in_loop: bool,
    links: &mut RowLinks,
) -> Result<Step, Refusal>
    requires rows_bound { row_width * base + length rows.now ≤ row_width * max_rows }
    requires in_bounds { (5 < length rows.now) × (first_kind_lem rows.now ≡ Kind.Loop) }
    ensures { StepOk rows.now base depth opened in_loop links.old.ends links.old.elses links.new.ends links.new.elses result }
{
    if full(depth, opened) {
        return Err(Refusal::TooManyParts);
    }
    let ended = sequence(&rows[WIDTH..], base + 1, depth + 1, opened + 1, true, links)?;
    match ended {
        Seq::AtElse(_, _) => Err(Refusal::Misplaced),
        Seq::AtEnd(n, o) => {
            link(&mut links.ends, base, base + 1 + n);
            Ok(Step::Past(n + 2, o))
        }
    }
}
