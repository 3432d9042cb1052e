// Writing an answer, and as much of a buffer as there is.
ghost use Rattle.std.specs.Prelude.{◌≡◌, min, ◌++◌, length, take, drop};
ghost use Rattle.text.specs.Listing.{refused_text};

use crate::failure;
use text::write;

// The first so many bytes of a buffer, or as many as there are.
pub fn front(n: usize, buffer: &[u8]) -> &[u8]
    ensures { result.now ≡ take (min n (length buffer.now)) buffer.now }
{
    &buffer[..n.min(buffer.len())]
}

// Every answer goes this way: where it can't be written that is said, once, and the caller writes no more. Whether it was written is a bool,
// since what went wrong is told here and is no caller's.
pub fn answer(rt: &impl Print, bytes: &[u8]) -> bool {
    match rt.write_all(bytes) {
        Ok(()) => true,
        Err(e) => {
            failure::tell("cannot write standard output", e);
            false
        }
    }
}

// `refused N`
pub fn refused(rt: &impl Print, number: u8, text: &mut [u8])
    requires { 65536 ≡ length text.old }
    ensures { text.new ≡ refused_text number ++ drop (length (refused_text number)) text.old }
{
    let n = write::refusal(number, text);
    answer(rt, front(n, text));
}
