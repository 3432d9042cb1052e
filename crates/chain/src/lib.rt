// The chain of a source table, with its links: what hardening and running go by where a table has switches.
#![tactic(auto)]

ghost use Rattle.std.specs.Prelude.{◌≡◌, ◌*◌, length};
ghost use Rattle.rules.specs.Limits.{max_rows};
ghost use Rattle.rules.specs.Row.{row_width};
ghost use Rattle.chain.specs.Linked.{LinkedOk};

use fault::find;
use rows::WIDTH;
use rules::limits::ROWS;
use rules::refusal::Refusal;
use table::check::check;
use table::links::TableLinks;

// The bytes of the longest chain.
pub const SIZE: usize = ROWS * WIDTH;

// Finds the chain, which stands at the front of `chain` afterwards, and its links: how many bytes it has.
pub fn link(rows: &[u8], chain: &mut [u8], links: &mut TableLinks) -> Result<usize, Refusal>
    requires { length chain.old ≡ row_width * max_rows }
    ensures { LinkedOk rows.now chain.new links.new.rows.ends links.new.rows.elses links.new.heads result }
{
    let count = find(rows, chain)?;
    let size = WIDTH * count;
    check(&chain[..size], links)?;
    Ok(size)
}
