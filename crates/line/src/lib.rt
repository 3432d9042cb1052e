// A hardened line: its fields, a constructor for each kind, and its bytes written. read.rt has its bytes read.
#![tactic(auto)]

ghost use Rattle.std.specs.Prelude.{◌≡◌, ◌+◌, ◌≤◌, ◌<◌, length};
ghost use Rattle.rules.specs.Line.{line_width, no_operands, do_line, tick_line, test_line, leave_line, out_line, call_line, back_line, ret_line};
ghost use Rattle.line.specs.Line.{struct, fields, put};

use bytes::spell;
use rules::operands::Operands;

pub mod bytes;
pub mod kind;
pub mod read;

// The fields of a line of any kind; those that its kind does not use are 0.
#[derive(Drop)]
pub struct Line {
    // The byte, one of the constants below: 01 asks for these.
    pub kind: u8,
    pub operands: Operands,
    pub r: u8,
    pub s: u8,
    pub t: u8,
    pub e: u16,
    pub a: u16,
    pub b: u16,
    pub c: u16,
    pub go: u16,
}

impl Line {
    // A line's bytes.
    pub const WIDTH: usize = 20;

    // The kinds.
    pub const DO: u8 = 0x21;

    pub const TICK: u8 = 0x22;

    pub const TEST: u8 = 0x23;

    pub const LEAVE: u8 = 0x24;

    pub const OUT: u8 = 0x25;

    pub const CALL: u8 = 0x26;

    pub const BACK: u8 = 0x27;

    pub const RET: u8 = 0x28;

    fn make(
        kind: u8,
        o: Operands,
        r: u8,
        s: u8,
        t: u8,
        e: u16,
        a: u16,
        b: u16,
        c: u16,
        go: u16,
    ) -> Line
        ensures { result ≡ fields kind (o) r s t e a b c «go» }
    {
        Line {
            kind,
            operands: o,
            r,
            s,
            t,
            e,
            a,
            b,
            c,
            go,
        }
    }

    // A line that copies no fields of a row.
    fn bare(kind: u8, r: u8, s: u8, t: u8, e: u16, a: u16, b: u16, c: u16, go: u16) -> Line
        ensures { result ≡ fields kind no_operands r s t e a b c «go» }
    {
        let none = Operands {
            op: 0,
            p: 0,
            q: 0,
            n: 0,
        };
        Line::make(kind, none, r, s, t, e, a, b, c, go)
    }

    // Does what its row does; e is the row's number.
    pub fn act(o: Operands, e: u16) -> Line
        ensures { result ≡ struct (do_line (o) e) }
    {
        Line::make(Line::DO, o, 0, 0, 0, e, 0, 0, 0, 0)
    }

    // Follows a do.
    pub fn tick(r: u8, e: u16) -> Line
        requires { e < 65535 }
        ensures { result ≡ struct (tick_line r e (e + 1)) }
    {
        Line::bare(Line::TICK, r, 0, 0, e, e + 1, 0, 0, 0)
    }

    // Tests: true opens region s at b, false sets region t to c and goes to line go.
    pub fn test(o: Operands, r: u8, s: u8, t: u8, e: u16, b: u16, c: u16, go: u16) -> Line
        requires { e < 65535 }
        ensures { result ≡ struct (test_line (o) r s t e (e + 1) b c «go») }
    {
        Line::make(Line::TEST, o, r, s, t, e, e + 1, b, c, go)
    }

    // Leaves region r for region s, which holds b and gets a.
    pub fn leave(r: u8, s: u8, e: u16, a: u16, b: u16, go: u16) -> Line
        ensures { result ≡ struct (leave_line r s e a b «go») }
    {
        Line::bare(Line::LEAVE, r, s, 0, e, a, b, 0, go)
    }

    // Leaves the regions t to r for region s, which gets a.
    pub fn out(r: u8, s: u8, t: u8, e: u16, a: u16, go: u16) -> Line
        ensures { result ≡ struct (out_line r s t e a «go») }
    {
        Line::bare(Line::OUT, r, s, t, e, a, 0, 0, go)
    }

    // Calls the function whose base is b and whose first line is go.
    pub fn call(r: u8, e: u16, b: u16, go: u16) -> Line
        requires { e < 65535 }
        ensures { result ≡ struct (call_line r e (e + 1) b «go») }
    {
        Line::bare(Line::CALL, r, 0, 0, e, e + 1, b, 0, go)
    }

    // Follows a call of a function that ends at b.
    pub fn back(r: u8, e: u16, b: u16) -> Line
        requires { e < 65535 }
        ensures { result ≡ struct (back_line r e (e + 1) b) }
    {
        Line::bare(Line::BACK, r, 0, 0, e, e + 1, b, 0, 0)
    }

    // Ends a function.
    pub fn ret(e: u16) -> Line
        requires { e < 65535 }
        ensures { result ≡ struct (ret_line e (e + 1)) }
    {
        Line::bare(Line::RET, 0, 0, 0, e, e + 1, 0, 0, 0)
    }

    // Writes the line's bytes from byte at on.
    pub fn write(self, out: &mut [u8], at: usize)
        requires { at + line_width ≤ length out.old }
        ensures { out.new ≡ put out.old at self }
    {
        let n = spell(self.operands.n);
        let e = spell(self.e);
        let a = spell(self.a);
        let b = spell(self.b);
        let c = spell(self.c);
        let go = spell(self.go);
        let bytes = [
            self.kind,
            self.operands.op,
            self.operands.p,
            self.operands.q,
            n[0],
            n[1],
            self.r,
            self.s,
            self.t,
            0,
            e[0],
            e[1],
            a[0],
            a[1],
            b[0],
            b[1],
            c[0],
            c[1],
            go[0],
            go[1],
        ];
        out[at..at + Line::WIDTH].copy_from_slice(&bytes);
    }
}
