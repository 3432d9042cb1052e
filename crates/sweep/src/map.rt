// The map of one function, or that there is no such function.
ghost use Rattle.std.specs.Prelude.{◌≡◌, length};
ghost use Rattle.rules.specs.Limits.{counter_words};

use compare::spare::Spare;
use console::page::Page;
use console::standard_error::StandardError;
use picture::function;
use rules::answer::Swept;
use std::fmt::Write;
use sweeper::unstruck::Unstruck;

// On standard error: nothing is drawn.
fn tell_missing(wanted: u8, last: u8) {
    let _ = writeln!(
        StandardError,
        "function {wanted} is not there: the last one is {last}"
    );
}

pub fn show<P: Print>(
    run: &Unstruck,
    wanted: u8,
    swept: Swept,
    counters: &mut [u16],
    spare: &mut Spare,
    page: &mut Page<P>,
)
    requires { length counters.old ≡ counter_words }
{
    let last = function::last_of(run.table);
    if last < wanted {
        tell_missing(wanted, last);
        return;
    }
    function::draw_on(run, wanted, swept, counters, spare, page);
}
