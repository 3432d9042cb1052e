// What a row of each kind adds, in one number, so that one load and one addition take a row. What an end has is counted with the row that
// opens what it ends.
ghost use Rattle.std.specs.Prelude.{◌≡◌, ◌<◌};
ghost use Rattle.figures.specs.Tallied.{packed, Weights};

// The first bytes of 01's rows, and 0, which is none.
pub const KINDS: usize = 10;

// Lines count as one, a value and a region as so many.
pub const VALUE: u64 = 65536;

pub const REGION: u64 = 4294967296;

fn weight(lines: u64, values: u64, regions: u64) -> u64
    requires { (lines < 10) × (values < 10) × (regions < 10) }
    ensures { result ≡ packed lines values regions }
{
    lines + VALUE * values + REGION * regions
}

// By the first byte of a row: a function, a do, an if, an else, a loop, an end, a break, a continue, a call.
pub fn weights() -> [u64; KINDS]
    ensures { Weights result }
{
    let mut by = [0; KINDS];
    by[1] = weight(1, 2, 1);
    by[2] = weight(2, 1, 0);
    by[3] = weight(2, 3, 1);
    by[4] = weight(1, 1, 1);
    by[5] = weight(2, 3, 1);
    by[6] = weight(0, 0, 0);
    by[7] = weight(1, 1, 0);
    by[8] = weight(1, 1, 0);
    by[9] = weight(2, 2, 0);
    by
}
