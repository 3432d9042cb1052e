// The command line of the program `run`: which run, and with what. The loop over the words is `sweep`'s too.
ghost use Rattle.std.specs.Prelude.{◌≡◌, ◌≤◌, length};

use crate::word;
use crate::word::Word;
use crate::wrong::Expected;
use console::word::is;
use rules::limits::VARIABLES;
use std::env::{Env, FillError};

// What is run: a table's rows, its lines, or its lines once with each jump.
#[derive(Clone, Copy, PartialEq, Eq)]
pub enum Mode {
    Source,
    Hardened,
    Sweep,
}

// Before which step, and to which place.
#[derive(Clone, Copy)]
pub struct Jump {
    pub step: u16,
    pub place: u16,
}

// Each is given once at most. A sweep has no jump, `trace` or `show`, a run no `list`, `map` or function.
#[derive(Clone, Copy)]
pub struct Asked {
    pub mode: Mode,
    pub trace: bool,
    pub show: bool,
    pub list: bool,
    pub map: bool,
    pub budget: Option<u16>,
    pub jump: Option<Jump>,
    pub function: Option<u8>,
    pub variables: [Option<u16>; VARIABLES],
}

// What was expected in a word's place, and how many of its bytes the buffer holds.
#[derive(Clone, Copy)]
pub struct Fault {
    pub expected: Expected,
    pub length: usize,
}

impl Asked {
    // Nothing but what is run.
    pub fn begun(mode: Mode) -> Self {
        Asked {
            mode,
            trace: false,
            show: false,
            list: false,
            map: false,
            budget: None,
            jump: None,
            function: None,
            variables: [None; VARIABLES],
        }
    }

    // The largest budget where none is given.
    pub fn budget_or_most(&self) -> u16 {
        self.budget.unwrap_or(u16::MAX)
    }

    // A variable that is not given is 0.
    pub fn variables_or_zero(&self) -> [u16; VARIABLES] {
        self.variables.map(|x| x.unwrap_or(0))
    }

    fn with(self, word: Word) -> Result<Self, Expected> {
        match word {
            Word::Budget(x) => self.with_budget(x),
            Word::Variable(k, value) => self.with_variable(k, value),
            Word::Jump(jump) => self.with_jump(jump),
            Word::Trace => self.with_trace(),
            Word::Show => self.with_show(),
            Word::List => self.with_list(),
            Word::Map => self.with_map(),
            Word::Function(f) => self.with_function(f),
        }
    }

    fn with_budget(self, x: u16) -> Result<Self, Expected> {
        if self.budget.is_some() {
            return Err(Expected::OneBudget);
        }
        Ok(Asked {
            budget: Some(x),
            ..self
        })
    }

    fn with_jump(self, jump: Jump) -> Result<Self, Expected> {
        if self.mode != Mode::Hardened {
            return Err(Expected::NoJump);
        }
        if self.jump.is_some() {
            return Err(Expected::OneJump);
        }
        Ok(Asked {
            jump: Some(jump),
            ..self
        })
    }

    fn with_trace(self) -> Result<Self, Expected> {
        if self.trace {
            return Err(Expected::OneTrace);
        }
        Ok(Asked {
            trace: true,
            ..self
        })
    }

    fn with_show(self) -> Result<Self, Expected> {
        if self.show {
            return Err(Expected::OneShow);
        }
        Ok(Asked { show: true, ..self })
    }

    fn with_list(self) -> Result<Self, Expected> {
        if self.list {
            return Err(Expected::OneList);
        }
        if self.map {
            return Err(Expected::ListOrMap);
        }
        Ok(Asked { list: true, ..self })
    }

    fn with_map(self) -> Result<Self, Expected> {
        if self.map {
            return Err(Expected::OneMap);
        }
        if self.list {
            return Err(Expected::ListOrMap);
        }
        Ok(Asked { map: true, ..self })
    }

    fn with_function(self, f: u8) -> Result<Self, Expected> {
        if self.function.is_some() {
            return Err(Expected::OneFunction);
        }
        Ok(Asked {
            function: Some(f),
            ..self
        })
    }

    fn with_variable(self, k: u16, value: Option<u16>) -> Result<Self, Expected> {
        let i = usize::from(k);
        if VARIABLES <= i {
            return Err(Expected::Any);
        }
        let x = value.ok_or(Expected::Variable(k))?;
        if self.variables[i].is_some() {
            return Err(Expected::OneVariable(k));
        }
        let mut asked = self;
        asked.variables[i] = Some(x);
        Ok(asked)
    }
}

// Reads each word into the buffer, where the first wrong one stays.
pub fn read(rt: &impl Env, buffer: &mut [u8]) -> Result<Asked, Fault>
    requires { 4096 ≡ length buffer.old }
{
    match rt.arg(1, buffer) {
        Ok(n) => read_first(rt, n, buffer),
        Err(FillError::NotPresent) => Err(wrong(Expected::Run, 0)),
        Err(FillError::TooLong) => Err(wrong(Expected::Shorter, 4096)),
    }
}

// The first word has this length.
fn read_first(rt: &impl Env, n: usize, buffer: &mut [u8]) -> Result<Asked, Fault>
    requires { (4096 ≡ length buffer.old) × (n ≤ 4096) }
{
    if is(&buffer[..n], b"source") {
        return read_rest(rt, 2, Asked::begun(Mode::Source), buffer);
    }
    if is(&buffer[..n], b"hardened") {
        return read_rest(rt, 2, Asked::begun(Mode::Hardened), buffer);
    }
    Err(wrong(Expected::Run, n))
}

// The words from the one with this number on, which is 2 in a run and 1 in a sweep.
pub fn read_rest(
    rt: &impl Env,
    first: usize,
    start: Asked,
    buffer: &mut [u8],
) -> Result<Asked, Fault>
    requires { 4096 ≡ length buffer.old }
{
    let mut asked = start;
    for i in first..usize::MAX {
        let n = match rt.arg(i, buffer) {
            Ok(n) => n,
            Err(FillError::NotPresent) => return Ok(asked),
            Err(FillError::TooLong) => return Err(wrong(Expected::Shorter, 4096)),
        };
        match take(&buffer[..n], asked) {
            Ok(more) => asked = more,
            Err(e) => return Err(wrong(fitting(e, asked.mode), n)),
        }
    }
    Ok(asked)
}

fn wrong(expected: Expected, length: usize) -> Fault {
    Fault { expected, length }
}

fn take(text: &[u8], asked: Asked) -> Result<Asked, Expected> {
    let word = word::read(text, asked.mode)?;
    asked.with(word)
}

// What a sweep, a hardened run or a source run expects there. A source run has no jump.
fn fitting(e: Expected, mode: Mode) -> Expected {
    match (mode, e) {
        (Mode::Sweep, Expected::Any) => Expected::AnyOrList,
        (Mode::Hardened, Expected::Any) => Expected::AnyOrJump,
        (Mode::Source, Expected::Jump) => Expected::NoJump,
        _ => e,
    }
}
