// The limits of 01 and the sizes that follow from them. specs/Limits.antt has the same for the definitions.

// A table's rows, and its functions.
pub const ROWS: usize = 1024;

pub const FUNCTIONS: usize = 32;

// Ifs and loops open at one row, and regions in a function, its body among them.
pub const CONSTRUCTS: usize = 16;

pub const REGIONS: usize = 64;

// Functions open in a run, the first function 0 among them.
pub const OPEN: usize = 16;

// The same as a depth is counted.
pub const DEEPEST: u16 = OPEN as u16;

// A counter word for each region of each open function.
pub const COUNTERS: usize = 1024;

// The variables of a run.
pub const VARIABLES: usize = 16;

// A row has at most two lines.
pub const LINES: usize = 2048;

// The step number that is no jump.
pub const NO_STEP: u16 = 65535;
