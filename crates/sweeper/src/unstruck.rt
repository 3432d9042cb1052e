// The unstruck run that a sweep goes over.
ghost use Rattle.std.specs.Prelude.{◌≡◌, true};
ghost use Rattle.rules.specs.Line.{lines_in};
ghost use Rattle.rules.specs.ReadBack.{is_hardened_lem};
ghost use Rattle.sweeper.specs.Finishes.{Finishes, Finishes-prop};

use machine::table::Runnable;
use rules::limits::VARIABLES;

// It finishes in the budget, with this trace.
#[derive(Drop)]
pub struct Unstruck<'a> {
    pub table: &'a Runnable<'a>,
    pub variables: [u16; VARIABLES],
    pub budget: u16,
    pub trace: &'a [u16],
    pub ghost hardened: { is_hardened_lem table.now.lines.now ≡ true },
    pub ghost finishes: { Finishes (lines_in table.now.lines.now) variables budget trace.now } by { Finishes-prop (lines_in table.now.lines.now) variables budget trace.now },
}
