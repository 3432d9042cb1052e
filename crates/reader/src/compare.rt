// Whether rows are a table that hardens to given bytes.
ghost use Rattle.std.specs.Prelude.{◌≡◌, ◌&&◌};
ghost use Rattle.rules.specs.Bytes.{same};
ghost use Rattle.rules.specs.Refusal.{is_accepted};
ghost use Rattle.rules.specs.Check.{verdict_of};
ghost use Rattle.rules.specs.Harden.{hardened_bytes};

use table::check;
use table::links::TableLinks;

pub fn hardens_to(rows: &[u8], lines: &[u8]) -> bool
    ensures { result ≡ is_accepted (verdict_of rows.now) && same (hardened_bytes rows.now) lines.now }
{
    let mut links = TableLinks::new();
    match check::check(rows, &mut links) {
        Err(_) => false,
        Ok(()) => hardener::hardens_to_lines(
            rows,
            &links.rows.ends,
            &links.rows.elses,
            &links.heads,
            lines,
        ),
    }
}
