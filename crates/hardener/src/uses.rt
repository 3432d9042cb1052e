// What becomes of the lines of a pass: they are kept, or they are compared with given bytes.
ghost use Rattle.std.specs.Prelude.{◌≡◌, ◌<◌, ℕ, Bool, true, false, List, [], length};
ghost use Rattle.hardener.specs.Pass.{fitting, agreed, Batch, Stretch};

use crate::compare::are_same;

// How many rows are compared at a time: so many that the comparison is wide, so few that the scratch is short.
const BATCH: usize = 32;

pub trait Use {
    // Whether the lines are compared, and with which bytes.
    ghost comparing: { Bool };

    ghost given: { Self → List ℕ };

    // The number of rows that are made next, from row `from` of n on.
    fn batch(&self, from: usize, n: usize) -> usize
        requires { from < n }
        ensures { Batch comparing from n result };

    // Whether `size` bytes of lines can be what is asked for, by the lengths alone.
    fn fits(&self, size: usize, room: usize) -> bool
        ensures { result ≡ fitting comparing size (length (given self.now)) room };

    // Whether what was made is what is asked for from byte `first` up to byte `past`.
    fn agrees(&self, made: &[u8], first: usize, past: usize) -> bool
        requires { Stretch comparing made.now (given self.now) first past }
        ensures { result ≡ agreed comparing made.now (given self.now) first past };
}

// The lines stay in the output, all rows at once.
#[derive(Drop)]
pub struct Keeping;

impl Use for Keeping {
    ghost comparing = { false };

    ghost given = { λ s. [] };

    fn batch(&self, from: usize, n: usize) -> usize {
        n - from
    }

    fn fits(&self, size: usize, room: usize) -> bool {
        size <= room
    }

    fn agrees(&self, _made: &[u8], _first: usize, _past: usize) -> bool {
        true
    }
}

// The lines are made some rows at a time in a scratch and compared with these.
#[derive(Drop)]
pub struct Comparing<'a> {
    pub lines: &'a [u8],
}

impl Use for Comparing<'_> {
    ghost comparing = { true };

    ghost given = { λ s. s.lines.now };

    fn batch(&self, from: usize, n: usize) -> usize {
        BATCH.min(n - from)
    }

    fn fits(&self, size: usize, _room: usize) -> bool {
        self.lines.len() == size
    }

    fn agrees(&self, made: &[u8], first: usize, past: usize) -> bool {
        are_same(&made[..past - first], &self.lines[first..past])
    }
}
