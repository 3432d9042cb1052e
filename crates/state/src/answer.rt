// What a run answers.
ghost use Rattle.std.specs.Prelude.{◌≡◌};
ghost use Rattle.rules.specs.Run.{outcome_of_lem};
ghost use Rattle.state.specs.Machine.{ran_of};

use crate::machine::Stopped;
use rules::answer::Ran;
use rules::step::Step;

// The number that 01 has for what a run ended with, by a match, as 01 asks.
#[tactic(auto, unfolding(rules::specs::Run::outcome_of_lem))]
pub fn outcome_of(step: Step) -> u8
    ensures { result ≡ outcome_of_lem step }
{
    match step {
        Step::Went(_) => 0,
        Step::Finished => 1,
        Step::Alarm => 2,
        Step::TooManyOpen(_) => 3,
        Step::Beyond(_) => 4,
        Step::Overflow(_, _) => 5,
    }
}

// The answer of an accepted run.
pub fn answer(x: Stopped) -> Ran
    ensures { result ≡ ran_of x }
{
    let h = x.machine.registers;
    let variables = x.machine.variables;
    Ran {
        number: 0,
        outcome: outcome_of(x.step),
        steps: h.steps,
        traced: h.traced,
        variables,
    }
}
