// An accepted table with the word of each of its rows, as its runs need it. It goes by value, so that a step reads it from the processor's
// registers.
ghost use Rattle.std.specs.Prelude.{◌≡◌};
ghost use Rattle.rules.specs.Bytes.{AreBytes};
ghost use Rattle.rules.specs.Row.{table_of, operands_at};
ghost use Rattle.source.specs.Goes.{Known, go_of_lem, code_of};
ghost use Rattle.source.specs.Step.{Standing};

use layout::row;
use rules::limits::ROWS;
use rules::operands::Operands;
use state::machine::Registers;

#[derive(Clone, Copy)]
pub struct Runnable<'a> {
    pub rows: &'a [u8],
    // What each row does and where it goes.
    pub goes: &'a [u16; ROWS],
    pub ghost bytes: { AreBytes rows.now },
    pub ghost known: { Known rows.now goes.now },
}

// The fields of the row that the run stands at, which asks for no words. The caller knows its op and hands it on as a number that the
// compiler sees, so that nothing is left of the tests of it.
pub fn fields(rows: &[u8], h: Registers, op: u8) -> Operands
    requires { (Standing rows.now h) × ((operands_at (table_of rows.now) h.at).op ≡ op) }
    ensures { result ≡ operands_at (table_of rows.now) h.at }
{
    let o = row::operands_of(rows, usize::from(h.at));
    Operands {
        op,
        p: o.p,
        q: o.q,
        n: o.n,
    }
}

impl Runnable<'_> {
    // Where the row goes that the run stands at.
    pub fn go_of(self, h: Registers) -> u16
        requires { Standing self.rows.now h }
        ensures { result ≡ go_of_lem (table_of self.entry.rows.now) h.at }
    {
        self.goes[usize::from(h.at)] % 4096
    }

    // What it does.
    pub fn code_of(self, h: Registers) -> u16
        requires { Standing self.rows.now h }
        ensures { result ≡ code_of (table_of self.entry.rows.now) h.at }
    {
        self.goes[usize::from(h.at)] / 4096
    }

    // Its fields, as above.
    pub fn fields(self, h: Registers, op: u8) -> Operands
        requires { (Standing self.rows.now h) × ((operands_at (table_of self.rows.now) h.at).op ≡ op) }
        ensures { result ≡ operands_at (table_of self.entry.rows.now) h.at }
    {
        fields(self.rows, h, op)
    }
}
