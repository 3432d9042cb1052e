// How a program begins: it reads its input, or prints its usage and reads none.
use crate::{output, word};
use std::env::{Env, FillError};

// Whether the first word is `--help`. A longer word does not fit, and is read as none.
pub fn asks_help(rt: &impl Env) -> bool {
    let mut buffer = [0u8; 8];
    match rt.arg(1, &mut buffer) {
        Ok(n) => word::is(&buffer[..n], b"--help"),
        Err(_) => false,
    }
}

// Whether the program is given any word.
pub fn has_words(rt: &impl Env) -> bool {
    let mut buffer = [0u8; 8];
    !matches!(rt.arg(1, &mut buffer), Err(FillError::NotPresent))
}

// Whether a program that takes no words is given none; else its usage is printed. It is bytes and not text, so that callers are asked no more than that.
pub fn is_bare(rt: &(impl Print + Env), usage: &[u8]) -> bool {
    if !has_words(rt) {
        return true;
    }
    tell(rt, usage);
    false
}

// The usage: on standard output where it is asked for, else in place of an answer.
pub fn tell(rt: &(impl Print + Env), usage: &[u8]) {
    if asks_help(rt) {
        output::answer(rt, usage);
        return;
    }
    io::write_all(2, usage);
}
