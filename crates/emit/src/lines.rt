// The lines of a row, one small function for each. A do's asks for its rows alone; the others are this crate's: emit_rows promises them.
ghost use Rattle.std.specs.Prelude.{◌≡◌, ◌/◌, ◌<◌, ◌≤◌, length};
ghost use Rattle.rules.specs.Limits.{max_rows};
ghost use Rattle.rules.specs.declared.kind.Kind.{Kind};
ghost use Rattle.rules.specs.Row.{table_of, kind_at};
ghost use Rattle.layout.specs.Spot.{Inside, InLoop, Opens, Grows};
ghost use Rattle.line.specs.Line.{struct};
ghost use Rattle.emit.specs.Emit.{row_line, plain_test_lem, else_test_lem, TurnsAt};

use layout::numbered::Numbered;
use layout::row;
use line::Line;

// The line that does row i.
pub fn do_line(rows: &[u8], i: usize) -> Line
    requires { (length rows.now / 6 ≤ max_rows) × (i < length rows.now / 6) × (kind_at (table_of rows.now) i ≡ Kind.Do) }
    ensures { result ≡ struct (row_line (table_of rows.now) i 0) }
{
    Line::act(row::operands_of(rows, i), i as u16)
}

// The tick that follows it.
pub(crate) fn tick_line(table: &Numbered, i: usize) -> Line
    requires { (Inside table.now.linked.rows.now i) × (kind_at (table_of table.now.linked.rows.now) i ≡ Kind.Do) }
    ensures { result ≡ struct (row_line (table_of table.now.linked.rows.now) i 1) }
{
    let here = table.spot_of(i);
    Line::tick(here.r, here.e)
}

// The test of a loop, or of an if without an else.
fn plain_test(table: &Numbered, i: usize) -> Line
    requires { (Inside table.now.linked.rows.now i) × (Opens table.now.linked.rows.now i) × (Grows table.now.linked.rows.now i) }
    ensures { result ≡ struct (plain_test_lem (table_of table.now.linked.rows.now) i) }
{
    let f = row::operands_of(table.linked.rows, i);
    let here = table.spot_of(i);
    let s = table.linked.child_of(i);
    let b = table.base_of(i);
    let past = table.linked.line_past(i);
    Line::test(f, here.r, s, here.r, here.e, b, here.e + 2, past)
}

// The test of an if whose else row is row x.
fn else_test(table: &Numbered, x: usize, i: usize) -> Line
    requires { (Inside table.now.linked.rows.now i) × (Grows table.now.linked.rows.now i) × (TurnsAt table.now.linked.rows.now i x) }
    ensures { result ≡ struct (else_test_lem (table_of table.now.linked.rows.now) i) }
{
    let f = row::operands_of(table.linked.rows, i);
    let here = table.spot_of(i);
    let s = table.linked.child_of(i);
    let t = table.linked.child_of(x);
    let b = table.base_of(i);
    let c = table.base_of(x);
    Line::test(f, here.r, s, t, here.e, b, c, table.linked.line_after(x))
}

// The test of the if in row i.
pub(crate) fn if_line(table: &Numbered, i: usize) -> Line
    requires { (Inside table.now.linked.rows.now i) × (kind_at (table_of table.now.linked.rows.now) i ≡ Kind.If) }
    ensures { result ≡ struct (row_line (table_of table.now.linked.rows.now) i 0) }
{
    let x = usize::from(table.linked.elses[i]);
    if x == 0 {
        return plain_test(table, i);
    }
    else_test(table, x, i)
}

// The test of the loop in row i.
pub(crate) fn loop_line(table: &Numbered, i: usize) -> Line
    requires { (Inside table.now.linked.rows.now i) × (kind_at (table_of table.now.linked.rows.now) i ≡ Kind.Loop) }
    ensures { result ≡ struct (row_line (table_of table.now.linked.rows.now) i 0) }
{
    plain_test(table, i)
}

// The leave of the then part that ends at the else in row i.
pub(crate) fn else_line(table: &Numbered, i: usize) -> Line
    requires { (Inside table.now.linked.rows.now i) × (kind_at (table_of table.now.linked.rows.now) i ≡ Kind.Else) }
    ensures { result ≡ struct (row_line (table_of table.now.linked.rows.now) i 0) }
{
    let here = table.spot_of(i);
    let o = table.linked.opener_of(i);
    let up = table.spot_of(o);
    let past = table.linked.line_past(o);
    Line::leave(here.r, up.r, here.e, up.e + 2, up.e + 1, past)
}

// The leave of an if or a loop, or the ret of a function, at the end in row i.
pub(crate) fn end_line(table: &Numbered, i: usize) -> Line
    requires { (Inside table.now.linked.rows.now i) × (kind_at (table_of table.now.linked.rows.now) i ≡ Kind.End) }
    ensures { result ≡ struct (row_line (table_of table.now.linked.rows.now) i 0) }
{
    let here = table.spot_of(i);
    if table.linked.in_body(i) {
        return Line::ret(here.e);
    }
    let o = table.linked.opener_of(i);
    let up = table.spot_of(o);
    if table.linked.is_loop(o) {
        return Line::leave(
            here.r,
            up.r,
            here.e,
            up.e,
            up.e + 1,
            table.linked.line_of(o),
        );
    }
    Line::leave(
        here.r,
        up.r,
        here.e,
        up.e + 2,
        up.e + 1,
        table.linked.line_after(i),
    )
}

// The out of the break in row i.
pub(crate) fn break_line(table: &Numbered, i: usize) -> Line
    requires { (InLoop table.now.linked.rows.now i) × (kind_at (table_of table.now.linked.rows.now) i ≡ Kind.Break) }
    ensures { result ≡ struct (row_line (table_of table.now.linked.rows.now) i 0) }
{
    let here = table.spot_of(i);
    let o = table.linked.loop_of(i);
    let up = table.spot_of(o);
    let t = table.linked.child_of(o);
    let past = table.linked.line_past(o);
    Line::out(here.r, up.r, t, here.e, up.e + 2, past)
}

// The out of the continue in row i.
pub(crate) fn continue_line(table: &Numbered, i: usize) -> Line
    requires { (InLoop table.now.linked.rows.now i) × (kind_at (table_of table.now.linked.rows.now) i ≡ Kind.Continue) }
    ensures { result ≡ struct (row_line (table_of table.now.linked.rows.now) i 0) }
{
    let here = table.spot_of(i);
    let o = table.linked.loop_of(i);
    let up = table.spot_of(o);
    let t = table.linked.child_of(o);
    Line::out(here.r, up.r, t, here.e, up.e, table.linked.line_of(o))
}

// The call in row i.
pub(crate) fn call_line(table: &Numbered, i: usize) -> Line
    requires { (Inside table.now.linked.rows.now i) × (kind_at (table_of table.now.linked.rows.now) i ≡ Kind.Call) }
    ensures { result ≡ struct (row_line (table_of table.now.linked.rows.now) i 0) }
{
    let here = table.spot_of(i);
    let o = table.linked.callee_of(i);
    let b = table.base_of(o);
    Line::call(here.r, here.e, b, table.linked.line_after(o))
}

// The back that follows it.
pub(crate) fn back_line(table: &Numbered, i: usize) -> Line
    requires { (Inside table.now.linked.rows.now i) × (kind_at (table_of table.now.linked.rows.now) i ≡ Kind.Call) }
    ensures { result ≡ struct (row_line (table_of table.now.linked.rows.now) i 1) }
{
    let here = table.spot_of(i);
    let o = table.linked.callee_of(i);
    Line::back(here.r, here.e + 1, table.end_value(o))
}
