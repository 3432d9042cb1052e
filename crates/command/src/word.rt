// What one word says, in a sweep or behind the first word of a run.
use crate::arguments::{Jump, Mode};
use crate::wrong::Expected;
use console::number::decimal;
use console::word::{is, skip};

// The largest number of a function.
const LAST_FUNCTION: u16 = 31;

#[derive(Clone, Copy)]
pub enum Word {
    Budget(u16),
    // a variable's number, which may be too large, and its value, where that is a number
    Variable(u16, Option<u16>),
    Jump(Jump),
    Trace,
    Show,
    List,
    Map,
    Function(u8),
}

pub fn read(word: &[u8], mode: Mode) -> Result<Word, Expected> {
    match mode {
        Mode::Sweep => of_sweep(word),
        Mode::Source | Mode::Hardened => of_run(word),
    }
}

fn of_sweep(word: &[u8]) -> Result<Word, Expected> {
    if is(word, b"list") {
        return Ok(Word::List);
    }
    if is(word, b"map") {
        return Ok(Word::Map);
    }
    match skip(word, b"function=") {
        Some(text) => function(text).ok_or(Expected::Function),
        None => of_both(word),
    }
}

fn of_run(word: &[u8]) -> Result<Word, Expected> {
    if is(word, b"trace") {
        return Ok(Word::Trace);
    }
    if is(word, b"show") {
        return Ok(Word::Show);
    }
    match skip(word, b"jump=") {
        Some(text) => jump(text).ok_or(Expected::Jump),
        None => of_both(word),
    }
}

fn of_both(word: &[u8]) -> Result<Word, Expected> {
    if let Some(text) = skip(word, b"budget=") {
        let budget = decimal(text).ok_or(Expected::Budget)?;
        return Ok(Word::Budget(budget));
    }
    let text = skip(word, b"v").ok_or(Expected::Any)?;
    variable(text).ok_or(Expected::Any)
}

// `1`
fn function(text: &[u8]) -> Option<Word> {
    let f = decimal(text)?;
    if LAST_FUNCTION < f {
        return None;
    }
    Some(Word::Function(f as u8))
}

// `4:6`
fn jump(text: &[u8]) -> Option<Word> {
    let at = text.iter().position(|b| *b == b':')?;
    let step = decimal(&text[..at])?;
    let place = decimal(&text[at + 1..])?;
    Some(Word::Jump(Jump { step, place }))
}

// `1=1`
fn variable(text: &[u8]) -> Option<Word> {
    let at = text.iter().position(|b| *b == b'=')?;
    let k = name(&text[..at])?;
    Some(Word::Variable(k, decimal(&text[at + 1..])))
}

// The number of a variable, with no 0 before it.
fn name(text: &[u8]) -> Option<u16> {
    match text {
        [b'0', _] | [_, _, _, ..] => None,
        _ => decimal(text),
    }
}
