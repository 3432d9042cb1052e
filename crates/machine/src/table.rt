// A hardened table with where its functions are, as its runs need it.
ghost use Rattle.std.specs.Prelude.{◌≡◌, true, ◌+◌, ◌-◌, ◌<◌, length, get_or};
ghost use Rattle.rules.specs.Line.{lines_in};
ghost use Rattle.rules.specs.Function.{function_at};
ghost use Rattle.rules.specs.ReadBack.{is_hardened_lem};
ghost use Rattle.machine.specs.Step.{map_of};
ghost use Rattle.machine.specs.Stands.{Ready};
ghost use Rattle.machine.specs.ReadyOnce.{Ready-prop};

use crate::map;
use rules::limits::{FUNCTIONS, LINES};

#[derive(Drop)]
pub struct Runnable<'a> {
    pub lines: &'a [u8],
    // The first line of each function, and the function of each line.
    pub starts: [u16; FUNCTIONS + 1],
    pub owners: [u8; LINES + 1],
    // The a of function 0's ret.
    pub home: u16,
    pub ghost ready: { Ready lines.now (map_of starts owners home) } by { Ready-prop lines.now (map_of starts owners home) },
}

impl<'a> Runnable<'a> {
    pub fn of(lines: &'a [u8]) -> Runnable<'a>
        requires { is_hardened_lem lines.now ≡ true }
        ensures { result.lines.now ≡ lines.now }
    {
        let mut starts = [0; FUNCTIONS + 1];
        let mut owners = [0; LINES + 1];
        map::survey(lines, &mut starts, &mut owners);
        let home = map::home_of(lines, &starts, &owners);
        Runnable {
            lines,
            starts,
            owners,
            home,
        }
    }

    // The first line of a function, and its place m.
    pub fn places_of(&self, function: u8) -> (u16, u16)
        requires { function < function_at (lines_in self.now.lines.now) (length (lines_in self.now.lines.now)) }
        ensures first { result.0 ≡ get_or self.now.starts function 0 }
        ensures last { result.1 ≡ get_or self.now.starts (function + 1) 0 - get_or self.now.starts function 0 }
    {
        let f = function as usize;
        let first = self.starts[f];
        (first, self.starts[f + 1] - first)
    }
}
