// A row as its six bytes, whatever they say: read from the front of some bytes, and put behind the rows before it.
ghost use Rattle.std.specs.Prelude.{◌≡◌, ◌+◌, ◌≤◌, ◌<◌, length};
ghost use Rattle.rows.specs.Row.{six, bare_row, read_row, test_row, Added};

#[derive(Clone, Copy)]
pub struct Row {
    pub kind: u8,
    pub op: u8,
    pub p: u8,
    pub q: u8,
    pub low: u8,
    pub high: u8,
}

impl Row {
    // A row's bytes.
    pub const WIDTH: usize = crate::WIDTH;

    // A row whose kind uses no field.
    pub fn bare(kind: u8) -> Row
        ensures { result ≡ bare_row kind }
    {
        Row {
            kind,
            op: 0,
            p: 0,
            q: 0,
            low: 0,
            high: 0,
        }
    }

    // A row that tests whether a variable is a number, which is given by its two bytes.
    pub fn test(kind: u8, p: u8, low: u8, high: u8) -> Row
        ensures { result ≡ test_row kind p low high }
    {
        Row {
            kind,
            op: 0,
            p,
            q: 0,
            low,
            high,
        }
    }

    // The row that the bytes begin with.
    pub fn read(rows: &[u8]) -> Row
        requires { 5 < length rows.now }
        ensures { result ≡ read_row rows.now }
    {
        Row {
            kind: rows[0],
            op: rows[1],
            p: rows[2],
            q: rows[3],
            low: rows[4],
            high: rows[5],
        }
    }

    // Puts the row from byte `at` on: the byte behind it. A place and a buffer side by side: `Added` says just that of them.
    pub fn write(self, rows: &mut [u8], at: usize) -> usize
        requires { at + 6 ≤ length rows.old }
        ensures { Added (six self) rows.old rows.new at result }
    {
        rows[at] = self.kind;
        rows[at + 1] = self.op;
        rows[at + 2] = self.p;
        rows[at + 3] = self.q;
        rows[at + 4] = self.low;
        rows[at + 5] = self.high;
        at + Row::WIDTH
    }
}
