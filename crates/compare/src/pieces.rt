// How a run ends, beside a trace that is known. It is made in pieces by the loop of every other run, which records the dos of each piece in a
// small buffer: so no trace is kept, and no test is added to that loop.
ghost use Rattle.std.specs.Prelude.{◌≡◌, []};
ghost use Rattle.rules.specs.Strike.{None};
ghost use Rattle.rules.specs.Line.{lines_in};
ghost use Rattle.rules.specs.State.{retraced};
ghost use Rattle.rules.specs.Run.{run, outcome_of_lem};
ghost use Rattle.rules.specs.Hardened.{Hardened, striking_step};
ghost use Rattle.rules.specs.Sweep.{ending_of};
ghost use Rattle.compare.specs.Compared.{goes_on_lem, ended_by_lem, Stood, Standing};

use crate::spare::{PIECE, Spare};
use machine::run::run_lines;
use machine::table::Runnable;
use rules::ending::Ending;
use rules::step::Step;
use state::machine::{Machine, afresh};

// Whether the known trace goes on with these rows, from its row `at`.
fn goes_on(rows: &[u16], known: &[u16], at: usize) -> bool
    ensures { result ≡ goes_on_lem rows.now known.now at }
{
    at <= known.len() && known[at..].starts_with(rows)
}

// What a run ended with, and whether its trace is the known one.
#[tactic(auto, unfolding(crate::specs::Compared::ended_by_lem, rules::specs::Run::outcome_of_lem))]
fn told(step: Step, same: bool) -> Ending
    ensures { result ≡ ended_by_lem (outcome_of_lem step) same }
{
    match step {
        Step::Alarm => Ending::Alarmed,
        Step::Finished if same => Ending::Same,
        Step::Finished => Ending::Other,
        Step::Went(_) | Step::TooManyOpen(_) | Step::Beyond(_) | Step::Overflow(_, _) => {
            Ending::Unfinished
        }
    }
}

// The machine has taken no step yet, and the spare counters are its own; what it does is compared with the known trace from its first row on.
pub fn ending(
    table: &Runnable,
    start: Machine,
    budget: u16,
    known: &[u16],
    spare: &mut Spare,
) -> Ending
    requires { Standing (lines_in table.now.lines.now) start spare.old.counters }
    ensures { (s : Hardened) → Stood (lines_in table.now.lines.now) start spare.old.counters s → result ≡ ending_of known.now (run (striking_step (lines_in table.now.lines.now) None) budget 0 (retraced [] s)) }
{
    let mut m = start;
    let mut left = budget;
    let mut at = 0;
    let mut same = true;
    // Kept as a while: the last piece has fewer steps than the others.
    while 0 < left {
        let n = left.min(PIECE as u16);
        let x = run_lines(table, m, n, &mut spare.counters, &mut spare.rows);
        let s = x.step;
        let traced = x.machine.registers.traced as usize;
        same &= goes_on(&spare.rows[..traced], known, at);
        at += traced;
        let Step::Went(_) = s else {
            return told(s, same & (at == known.len()));
        };
        m = afresh(x.machine);
        left -= n;
    }
    Ending::Unfinished
}
