// The kind of a row, by its first byte.
ghost use Rattle.std.specs.Prelude.{◌≡◌};
ghost use Rattle.rules.specs.Scan.{is_function_lem};
ghost use Rattle.rules.specs.Check.{is_call};

use rules::kind::Kind;
pub use rules::kind::{BREAK, CALL, CONTINUE, DO, ELSE, END, FUNCTION, IF, LOOP};

// Bytes and no enum: a row may have any byte, and one that is none is told (cause 3). Those of a switch's own rows (02, No. 1), which are no kinds of 01.
pub const SWITCH: u8 = 0x0a;

pub const CASE: u8 = 0x0b;

pub const DEFAULT: u8 = 0x0c;

pub fn is_function(kind: Kind) -> bool
    ensures { result ≡ is_function_lem kind }
{
    matches!(kind, Kind::Function)
}

pub fn is_call(kind: Kind) -> bool
    ensures { result ≡ is_call kind }
{
    matches!(kind, Kind::Call)
}
