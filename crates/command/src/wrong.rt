// The line for a wrong word, on standard error: the word, and what is expected there.
use console::standard_error::StandardError;
use std::fmt;
use std::fmt::Write as _;

#[derive(Clone, Copy)]
pub enum Expected {
    // the first word
    Run,
    // any other word, in a source run, in a hardened run and in a sweep
    Any,
    AnyOrJump,
    AnyOrList,
    // a number, or two
    Budget,
    Variable(u16),
    Jump,
    Function,
    // no jump in a source run
    NoJump,
    // no second one
    OneBudget,
    OneVariable(u16),
    OneJump,
    OneTrace,
    OneShow,
    OneList,
    OneMap,
    OneFunction,
    // one of the two
    ListOrMap,
    // so many bytes at most
    Shorter,
}

impl fmt::Display for Expected {
    fn fmt<W: fmt::Write>(&self, f: &mut fmt::Formatter<W>) -> fmt::Result {
        match *self {
            Expected::Run => write!(f, "source or hardened"),
            Expected::Any => write!(f, "budget=0..65535, v0..v15=0..65535, trace or show"),
            Expected::AnyOrJump => write!(
                f,
                "budget=0..65535, v0..v15=0..65535, jump=STEP:PLACE, trace or show"
            ),
            Expected::AnyOrList => write!(
                f,
                "budget=0..65535, v0..v15=0..65535, list, map or function=0..31"
            ),
            Expected::Budget => write!(f, "budget=0..65535"),
            Expected::Variable(k) => write!(f, "v{k}=0..65535"),
            Expected::Jump => write!(f, "jump=STEP:PLACE, each 0..65535"),
            Expected::Function => write!(f, "function=0..31"),
            Expected::NoJump => write!(f, "jump in a hardened run only"),
            Expected::OneBudget => write!(f, "budget only once"),
            Expected::OneVariable(k) => write!(f, "v{k} only once"),
            Expected::OneJump => write!(f, "jump only once"),
            Expected::OneTrace => write!(f, "trace only once"),
            Expected::OneShow => write!(f, "show only once"),
            Expected::OneList => write!(f, "list only once"),
            Expected::OneMap => write!(f, "map only once"),
            Expected::OneFunction => write!(f, "function only once"),
            Expected::ListOrMap => write!(f, "list or map, not both"),
            Expected::Shorter => write!(f, "at most 4096 bytes"),
        }
    }
}

pub fn say(word: &mut [u8], expected: Expected) {
    plain(word);
    let _ = write!(StandardError, "wrong word \"");
    // These bytes need not be text.
    io::write_all(2, word);
    let _ = writeln!(StandardError, "\": expected {expected}");
}

// Bytes that would end the line or leave it become question marks.
fn plain(word: &mut [u8]) {
    for b in word {
        if b.is_ascii_control() {
            *b = b'?';
        }
    }
}
