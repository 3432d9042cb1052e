// Tables that the walkers refuse: those with a switch go by their chain, the others are turned away.
ghost use Rattle.std.specs.Prelude.{◌≡◌};
ghost use Rattle.rules.specs.Calls.{harden_call, run_source_call};
ghost use Rattle.finuraho.specs.Given.{writes, runs};

use crate::{refused, run};
use chain::{SIZE, link};
use rules::answer::{Ran, Wrote};
use rules::limits::VARIABLES;
use table::links::TableLinks;

pub fn harden(rows: &[u8], links: &mut TableLinks, out: &mut [u8]) -> Wrote
    ensures { writes result out.new ≡ harden_call rows.now out.old }
{
    let mut chain = [0u8; SIZE];
    match link(rows, &mut chain, links) {
        Err(r) => refused(r),
        Ok(n) => hardener::harden_linked(
            &chain[..n],
            &links.rows.ends,
            &links.rows.elses,
            &links.heads,
            out,
        ),
    }
}

pub fn run_source(
    rows: &[u8],
    links: &mut TableLinks,
    variables: [u16; VARIABLES],
    budget: u16,
    trace: &mut [u16],
) -> Ran
    ensures { runs result trace.new ≡ run_source_call rows.now variables budget trace.old }
{
    let mut chain = [0u8; SIZE];
    match link(rows, &mut chain, links) {
        Err(r) => run::refused(r, variables),
        Ok(n) => run::source_run(
            &chain[..n],
            &links.rows.ends,
            &links.rows.elses,
            &links.heads,
            variables,
            budget,
            trace,
        ),
    }
}
