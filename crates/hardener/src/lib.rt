// Hardening an accepted table whose links are known, and telling whether it hardens to given bytes.
#![tactic(auto)]

ghost use Rattle.std.specs.Prelude.{◌≡◌};
ghost use Rattle.rules.specs.Verdict.{Accepted};
ghost use Rattle.rules.specs.Bytes.{same};
ghost use Rattle.rules.specs.Row.{table_of};
ghost use Rattle.rules.specs.Check.{verdict_of};
ghost use Rattle.rules.specs.Harden.{hardened_bytes};
ghost use Rattle.rules.specs.Links.{Links};
ghost use Rattle.rules.specs.Calls.{short_output, writing};
ghost use Rattle.hardener.specs.Answer.{written};

use rules::answer::Wrote;
use rules::limits::{FUNCTIONS, ROWS};
use rules::refusal::Refusal;
use uses::{Comparing, Keeping};

mod compare;
pub mod pass;
pub mod uses;

// Writes the hardened table to the front of out, where it fits there, and nothing where it does not.
pub fn harden_linked(
    rows: &[u8],
    ends: &[u16; ROWS],
    elses: &[u16; ROWS],
    heads: &[u16; FUNCTIONS],
    out: &mut [u8],
) -> Wrote
    requires rows_value { verdict_of rows.now ≡ Accepted }
    requires links { Links (table_of rows.now) ends.now elses.now heads.now }
    ensures { written result out.new ≡ writing (short_output (hardened_bytes rows.now) out.old) (hardened_bytes rows.now) out.old }
{
    match pass::pass(rows, ends, elses, heads, &Keeping, out) {
        None => Wrote {
            number: u8::from(Refusal::ShortOutput),
            length: 0,
        },
        Some(length) => Wrote { number: 0, length },
    }
}

// Whether the table hardens to the lines.
pub fn hardens_to_lines(
    rows: &[u8],
    ends: &[u16; ROWS],
    elses: &[u16; ROWS],
    heads: &[u16; FUNCTIONS],
    lines: &[u8],
) -> bool
    requires rows_value { verdict_of rows.now ≡ Accepted }
    requires links { Links (table_of rows.now) ends.now elses.now heads.now }
    ensures { result ≡ same (hardened_bytes rows.now) lines.now }
{
    let mut scratch = [0u8; 1280];
    pass::pass(rows, ends, elses, heads, &Comparing { lines }, &mut scratch).is_some()
}
