// The command line of the program `sweep`.
ghost use Rattle.std.specs.Prelude.{◌≡◌, length};

use crate::arguments;
use crate::arguments::{Asked, Fault, Mode};
use rules::limits::VARIABLES;
use std::env::Env;

// What is answered: the counts, behind a list of jumps, or the map of this function in their place.
#[derive(Clone, Copy)]
pub enum Form {
    Counts,
    List,
    Map(u8),
}

#[derive(Clone, Copy)]
pub struct SweepAsked {
    pub form: Form,
    pub budget: u16,
    pub variables: [u16; VARIABLES],
}

// `Mapless` is a function that is named with no map to draw.
#[derive(Clone, Copy)]
pub enum SweepFault {
    Word(Fault),
    Mapless,
}

impl From<Fault> for SweepFault {
    fn from(f: Fault) -> Self {
        SweepFault::Word(f)
    }
}

// Reads each word into the buffer, where the first wrong one stays.
pub fn read(rt: &impl Env, buffer: &mut [u8]) -> Result<SweepAsked, SweepFault>
    requires { 4096 ≡ length buffer.old }
{
    let asked = arguments::read_rest(rt, 1, Asked::begun(Mode::Sweep), buffer)?;
    Ok(SweepAsked {
        form: form_of(asked)?,
        budget: asked.budget_or_most(),
        variables: asked.variables_or_zero(),
    })
}

fn form_of(asked: Asked) -> Result<Form, SweepFault> {
    match asked.function {
        _ if asked.map => Ok(Form::Map(asked.function.unwrap_or(0))),
        Some(_) => Err(SweepFault::Mapless),
        None if asked.list => Ok(Form::List),
        None => Ok(Form::Counts),
    }
}
