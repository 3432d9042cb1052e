// Writing the lines of a table, row by row.
#![tactic(auto)]

ghost use Rattle.std.specs.Prelude.{◌≡◌, ◌/◌, ◌<◌, length};
ghost use Rattle.rules.specs.Row.{table_of};
ghost use Rattle.rules.specs.Calls.{over};
ghost use Rattle.line.specs.Line.{struct};
ghost use Rattle.emit.specs.Emit.{row_line, Makes, Holds, Emitted, rows_bytes, Room};

use layout::numbered::Numbered;
use layout::row;
use line::Line;
use rules::kind::Kind;

pub mod lines;

// Writes the one line of row i. Where it goes is looked up here, for each kind by itself: looked up once for all kinds, their writing is
// compiled into one piece, which is slower.
fn one(table: &Numbered, i: usize, first: usize, l: Line, out: &mut [u8])
    requires makes { (Makes table.now.linked.rows.now i 1) × (Holds table.now.linked.rows.now i first out.old) }
    requires l_value { l ≡ struct (row_line (table_of table.now.linked.rows.now) i 0) }
    ensures { Emitted table.now.linked.rows.now i first out.old out.new }
{
    let at = Line::WIDTH * (usize::from(table.linked.line_of(i)) - first);
    l.write(out, at);
}

// Writes the two lines of row i.
fn two(table: &Numbered, i: usize, first: usize, l: Line, k: Line, out: &mut [u8])
    requires makes { (Makes table.now.linked.rows.now i 2) × (Holds table.now.linked.rows.now i first out.old) }
    requires l_value { (l ≡ struct (row_line (table_of table.now.linked.rows.now) i 0)) × (k ≡ struct (row_line (table_of table.now.linked.rows.now) i 1)) }
    ensures { Emitted table.now.linked.rows.now i first out.old out.new }
{
    let at = Line::WIDTH * (usize::from(table.linked.line_of(i)) - first);
    l.write(out, at);
    k.write(out, at + Line::WIDTH);
}

// Writes the lines of row i to out, which begins with line `first`.
// Compiled into `emit_rows`, as that says.
#[inline(always)]
fn emit(table: &Numbered, i: usize, first: usize, out: &mut [u8])
    requires { (i < length table.now.linked.rows.now / 6) × (Holds table.now.linked.rows.now i first out.old) }
    ensures { Emitted table.now.linked.rows.now i first out.old out.new }
{
    match row::kind(table.linked.rows, i) {
        Kind::Function | Kind::Unknown => {}
        Kind::Do => {
            let l = lines::do_line(table.linked.rows, i);
            let k = lines::tick_line(table, i);
            two(table, i, first, l, k, out);
        }
        Kind::If => {
            let l = lines::if_line(table, i);
            one(table, i, first, l, out);
        }
        Kind::Else => {
            let l = lines::else_line(table, i);
            one(table, i, first, l, out);
        }
        Kind::Loop => {
            let l = lines::loop_line(table, i);
            one(table, i, first, l, out);
        }
        Kind::End => {
            let l = lines::end_line(table, i);
            one(table, i, first, l, out);
        }
        Kind::Break => {
            let l = lines::break_line(table, i);
            one(table, i, first, l, out);
        }
        Kind::Continue => {
            let l = lines::continue_line(table, i);
            one(table, i, first, l, out);
        }
        Kind::Call => {
            let l = lines::call_line(table, i);
            let k = lines::back_line(table, i);
            two(table, i, first, l, k, out);
        }
    }
}

// Writes the lines of `count` rows from row `from` on to the front of out.
// Compiled into each of the hardener's two passes: as a call it is slower and takes more stack.
#[inline(always)]
pub fn emit_rows(table: &Numbered, from: usize, count: usize, out: &mut [u8])
    requires { Room table.now.linked.rows.now from count out.old }
    ensures { out.new ≡ over (rows_bytes (table_of table.now.linked.rows.now) from count) out.old }
{
    let first = usize::from(table.linked.line_of(from));
    for k in 0..count {
        emit(table, from + k, first, out);
    }
}
