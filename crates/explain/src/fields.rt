// Which field of a row is wrong (01, "The source table"; 02, No. 1): each has a largest value, which is 0 for a field that the row does
// not use.
use crate::row::Row;
use console::page::Page;
use rows::kind::{DO, IF, LOOP, SWITCH};

// The first wrong field of op, p, q and n, what it is, and what it may be. A call's or a case's n is never wrong.
pub fn put<P: Print>(r: Row, page: &mut Page<P>) {
    let op = largest_op(r.kind);
    if op < r.op {
        return field(b"op", r.op.into(), op, page);
    }
    let p = largest_p(r.kind);
    if p < r.p {
        return field(b"p", r.p.into(), p, page);
    }
    let q = largest_q(r.kind, r.op);
    if q < r.q {
        return field(b"q", r.q.into(), q, page);
    }
    field(b"n", r.n, 0, page)
}

// `p is 16, not 0 to 15`, `n is 700, not 0`
fn field<P: Print>(name: &[u8], value: u16, most: u8, page: &mut Page<P>) {
    page.word(name);
    page.named(b" is ", value.into());
    page.word(b", not 0");
    if most != 0 {
        page.named(b" to ", most.into());
    }
}

fn largest_op(kind: u8) -> u8 {
    match kind {
        DO => 3,
        IF | LOOP => 2,
        _ => 0,
    }
}

fn largest_p(kind: u8) -> u8 {
    match kind {
        DO | IF | LOOP | SWITCH => 15,
        _ => 0,
    }
}

// A do uses q with op 1 to 3, an if and a loop with op 2; otherwise they use n.
fn largest_q(kind: u8, op: u8) -> u8 {
    match kind {
        DO if 1 <= op => 15,
        IF | LOOP if 2 <= op => 15,
        _ => 0,
    }
}
