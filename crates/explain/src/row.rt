// A row's bytes, and what is open before it.
use rows::WIDTH;
use rows::kind::{CASE, DEFAULT, ELSE, END, FUNCTION, IF, LOOP, SWITCH};

// The kind is 01's byte: a row at fault may have one that is no kind.
#[derive(Clone, Copy)]
pub struct Row {
    pub kind: u8,
    pub op: u8,
    pub p: u8,
    pub q: u8,
    pub n: u16,
}

// None at the end of the table.
pub fn at(rows: &[u8], row: usize) -> Option<Row> {
    let [kind, op, p, q, low, high] = rows.chunks_exact(WIDTH).nth(row)? else {
        return None;
    };
    Some(Row {
        kind: *kind,
        op: *op,
        p: *p,
        q: *q,
        n: u16::from_le_bytes([*low, *high]),
    })
}

// The kind of the row that opened the part in which this row stands straight: a function, an if (its then part), an else, a loop, a
// switch (before its first case), a case or a default; none outside of all. None of the rows before it is at fault.
pub fn inner(rows: &[u8], row: usize) -> Option<u8> {
    let mut nest = 0;
    for i in (0..row).rev() {
        let kind = at(rows, i)?.kind;
        if nest == 0 && opens_part(kind) {
            return Some(kind);
        }
        nest = nest_before(kind, nest);
    }
    None
}

// How many functions, ifs, loops and cases of open switches are open before this row, where none of the rows before it is at fault.
pub fn open_at(rows: &[u8], row: usize) -> usize {
    let mut count: usize = 0;
    let mut nest = 0;
    for i in (0..row).rev() {
        if let Some(r) = at(rows, i) {
            count = count.wrapping_add(opens(r.kind, nest));
            nest = nest_before(r.kind, nest);
        }
    }
    count
}

fn opens_part(kind: u8) -> bool {
    matches!(kind, FUNCTION | IF | ELSE | LOOP | SWITCH | CASE | DEFAULT)
}

// What a row inside so many closed ones adds to those that are open.
fn opens(kind: u8, nest: usize) -> usize {
    match kind {
        FUNCTION | IF | LOOP | CASE if nest == 0 => 1,
        _ => 0,
    }
}

// Inside how many closed ones the row before this one stands. One that is still open is left and not counted.
fn nest_before(kind: u8, nest: usize) -> usize {
    match kind {
        END => nest.wrapping_add(1),
        FUNCTION | IF | LOOP | SWITCH => nest.saturating_sub(1),
        _ => nest,
    }
}
