// The limits of what a function opens (cause 6).
ghost use Rattle.walk.specs.Limit.{NoRegion, Full};

use rules::limits::{CONSTRUCTS, REGIONS};

// With so many regions opened in the function, there is none for another part.
pub fn no_region(opened: usize) -> bool
    ensures { NoRegion opened result }
{
    opened >= REGIONS
}

// With so many ifs and loops open and so many regions opened, no if or loop may begin.
pub fn full(depth: usize, opened: usize) -> bool
    ensures { Full depth opened result }
{
    if depth >= CONSTRUCTS {
        return true;
    }
    no_region(opened)
}
