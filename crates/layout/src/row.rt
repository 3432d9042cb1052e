// Reading a row: its kind and its fields.
ghost use Rattle.std.specs.Prelude.{◌≡◌, ◌+◌, ◌/◌, ◌<◌, length};
ghost use Rattle.rules.specs.Row.{table_of, kind_at, operands_at};

use rules::bytes::word;
use rules::kind::Kind;
use rules::operands::Operands;

// A row's bytes.
pub const WIDTH: usize = rows::WIDTH;

// The kind of row i.
pub fn kind(rows: &[u8], i: usize) -> Kind
    requires { i < length rows.now / 6 }
    ensures { result ≡ kind_at (table_of rows.now) i }
{
    Kind::from(rows[WIDTH * i])
}

// What row i has beside its kind.
pub fn operands_of(rows: &[u8], i: usize) -> Operands
    requires { i < length rows.now / 6 }
    ensures { result ≡ operands_at (table_of rows.now) i }
{
    let k = WIDTH * i;
    Operands {
        op: rows[k + 1],
        p: rows[k + 2],
        q: rows[k + 3],
        n: word(rows, k + 4),
    }
}
