// Reading lines of hexadecimal digits to the end of the input, in constant memory.
ghost use Rattle.std.specs.Prelude.{◌≡◌, ◌≤◌, length};
ghost use Rattle.console.specs.Input.{read_at_end, Kept};

use crate::malformed::Seen;
use crate::{failure, malformed, output};
use std::io::Read as _;
use text::read;
use text::read::Reader;

// What was read is how many bytes, where those that the buffer does not hold are not counted; or nothing to go on with, which was told.

// Rows of 12 digits. There is room for 1,025: one more than a table may have, so that a longer one still meets 2.
pub fn take_rows(rt: &(impl Input + Print), chunk: &mut [u8], bytes: &mut [u8]) -> Option<usize>
    requires { 65536 ≡ length bytes.old }
    ensures { Kept 12 6150 bytes.new result }
{
    take(rt, 12, chunk, &mut bytes[..6150])
}

// Lines of 40 digits. There is room for 2,049: one more than a hardened table may have, so that a longer one still meets 10.
pub fn take_lines(rt: &(impl Input + Print), chunk: &mut [u8], bytes: &mut [u8]) -> Option<usize>
    requires { 65536 ≡ length bytes.old }
    ensures { Kept 40 40980 bytes.new result }
{
    take(rt, 40, chunk, &mut bytes[..40980])
}

// Each line has so many digits.
fn take(
    rt: &(impl Input + Print),
    digits: usize,
    chunk: &mut [u8],
    bytes: &mut [u8],
) -> Option<usize>
    requires { digits ≤ 40 }
    ensures { Kept digits (length bytes.old) bytes.new result }
{
    let mut r = read::start();
    let mut seen = malformed::start();
    let mut reader = rt.reader();
    for _ in 0..u64::MAX {
        let n = match reader.read(chunk) {
            Ok(n) => n,
            Err(e) => {
                failure::tell("cannot read standard input", e);
                return None;
            }
        };
        if n == 0 {
            return ended(rt, r, seen, digits);
        }
        r = read::feed(&chunk[..n], digits, r, bytes);
        seen = malformed::look(&chunk[..n], digits, seen);
    }
    ended(rt, r, seen, digits)
}

// The input ends here.
fn ended(rt: &impl Print, r: Reader, seen: Seen, digits: usize) -> Option<usize>
    ensures { result ≡ read_at_end digits r }
{
    if read::is_good(r, digits) {
        return Some(r.length);
    }
    malformed::tell(seen, digits);
    output::answer(rt, b"unreadable\n");
    None
}
