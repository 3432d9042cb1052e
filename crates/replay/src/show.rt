// Numbers and bytes as they are printed. Their digits are made here, some hundred at a time, and handed on as one text: a `write!` for each
// of them takes many times as long (docs/DESIGN-PASS.md).
ghost use Rattle.std.specs.Prelude.{◌≡◌, ◌≤◌, ◌<◌, ◌+◌, length};

use std::{fmt, str};

// How much text is made at a time.
const PIECE: usize = 4096;

// Digits and commas are text, so there is no error.
fn put<W: fmt::Write>(text: &[u8], f: &mut fmt::Formatter<W>) -> fmt::Result {
    let s = str::from_utf8(text).map_err(|_| fmt::Error)?;
    f.write_str(s)
}

// With commas between them; `-` for none.
#[derive(Clone, Copy)]
pub struct Words<'a>(pub &'a [u16]);

impl fmt::Display for Words<'_> {
    fn fmt<W: fmt::Write>(&self, f: &mut fmt::Formatter<W>) -> fmt::Result {
        let Some((first, others)) = self.0.split_first() else {
            return f.write_str("-");
        };
        let mut text = [0; PIECE];
        let n = decimal(*first, &mut text, 0);
        put(&text[..n], f)?;
        for part in others.chunks(PIECE / 6) {
            let n = list(part, &mut text);
            put(&text[..n], f)?;
        }
        Ok(())
    }
}

// In hexadecimal; `-` for none.
#[derive(Clone, Copy)]
pub struct Bytes<'a>(pub &'a [u8]);

impl fmt::Display for Bytes<'_> {
    fn fmt<W: fmt::Write>(&self, f: &mut fmt::Formatter<W>) -> fmt::Result {
        if self.0.is_empty() {
            return f.write_str("-");
        }
        let mut text = [0; PIECE];
        for part in self.0.chunks(PIECE / 2) {
            let n = spell(part, &mut text);
            put(&text[..n], f)?;
        }
        Ok(())
    }
}

// A comma before each; where the text ends.
fn list(words: &[u16], text: &mut [u8; PIECE]) -> usize
    requires { length words.now ≤ 682 }
    ensures { result ≤ 4096 }
{
    let mut n = 0;
    for word in words {
        text[n] = b',';
        n = decimal(*word, text, n + 1);
    }
    n
}

// In decimal, from `at` on: where it ends. One digit less at a time, so that each is one division.
fn decimal(x: u16, text: &mut [u8; PIECE], at: usize) -> usize
    requires { at + 5 ≤ 4096 }
    ensures { result ≤ at + 5 }
{
    if x < 10000 {
        return thousands(x, text, at);
    }
    let n = thousands(x / 10, text, at);
    last(x, text, n)
}

fn thousands(x: u16, text: &mut [u8; PIECE], at: usize) -> usize
    requires { at + 4 ≤ 4096 }
    ensures { result ≤ at + 4 }
{
    if x < 1000 {
        return hundreds(x, text, at);
    }
    let n = hundreds(x / 10, text, at);
    last(x, text, n)
}

fn hundreds(x: u16, text: &mut [u8; PIECE], at: usize) -> usize
    requires { at + 3 ≤ 4096 }
    ensures { result ≤ at + 3 }
{
    if x < 100 {
        return tens(x, text, at);
    }
    let n = tens(x / 10, text, at);
    last(x, text, n)
}

fn tens(x: u16, text: &mut [u8; PIECE], at: usize) -> usize
    requires { at + 2 ≤ 4096 }
    ensures { result ≤ at + 2 }
{
    if x < 10 {
        return last(x, text, at);
    }
    let n = last(x / 10, text, at);
    last(x, text, n)
}

// The last digit.
fn last(x: u16, text: &mut [u8; PIECE], at: usize) -> usize
    requires { at < 4096 }
    ensures { result ≡ at + 1 }
{
    text[at] = b'0' + (x % 10) as u8;
    at + 1
}

// Two digits for each; where the text ends. By a comparison, which is done for many bytes at a time; a table of the digits is not.
fn spell(bytes: &[u8], text: &mut [u8; PIECE]) -> usize
    requires { length bytes.now ≤ 2048 }
    ensures { result ≤ 4096 }
{
    for (i, byte) in bytes.iter().enumerate() {
        text[2 * i] = digit(byte / 16);
        text[2 * i + 1] = digit(byte % 16);
    }
    2 * bytes.len()
}

fn digit(v: u8) -> u8
    requires { v < 16 }
{
    if v < 10 {
        return b'0' + v;
    }
    b'a' - 10 + v
}
