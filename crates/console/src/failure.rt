// A read or a write that failed: standard error has what it was, and the system's words.
ghost use Rattle.std.specs.Prelude.{◌≡◌, length, take};

use crate::output::front;
use crate::standard_error::StandardError;
use std::fmt::Write as _;
use std::io::{Cursor, Error, Write};

pub fn tell(what: &str, error: Error) {
    let mut text = Cursor::new([0u8; 128]);
    let _ = write!(text, "{error}");
    let n = text.position() as usize;
    let buffer = text.into_inner();
    let _ = write!(StandardError, "{what}: ");
    // The system's words are bytes, which need not be text.
    io::write_all(2, words(front(n, &buffer)));
    let _ = writeln!(StandardError, "");
}

// The system's words: std puts ` (os error N)` behind them.
fn words(text: &[u8]) -> &[u8]
    ensures { result.now ≡ take (length result.now) text.now }
{
    match text.iter().position(|b| *b == b'(') {
        Some(at) => &text[..at.saturating_sub(1)],
        None => text,
    }
}
