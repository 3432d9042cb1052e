// What a public call answers beside the buffers that it was lent. Causes and outcomes are numbers here, and a refusal no Err: these are the
// structs of include/finuraho.h.
use crate::limits::VARIABLES;

// A call that writes a table: the number of 01 and the length of the answer in bytes.
#[repr(C)]
#[derive(Clone, Copy)]
pub struct Wrote {
    pub number: u8,
    pub length: usize,
}

// A run: the number of 01, and what "A run answers outcome, steps, trace length and the variables" names.
#[repr(C)]
#[derive(Clone, Copy)]
pub struct Ran {
    pub number: u8,
    pub outcome: u8,
    pub steps: u16,
    pub traced: u16,
    pub variables: [u16; VARIABLES],
}

// A table's fault: the number of 01, and the row that it is about; for the end of the table, the number of rows.
#[repr(C)]
#[derive(Clone, Copy)]
pub struct Fault {
    pub number: u8,
    pub row: usize,
}

// How much a table takes: the number of 01, and of its hardened table the most regions that a function has, the lines, and the highest
// counter value that a line names.
#[repr(C)]
#[derive(Clone, Copy)]
pub struct Measured {
    pub number: u8,
    pub regions: u8,
    pub lines: u16,
    pub value: u16,
}

// A sweep: the number of 01, and how many of its runs ended with an alarm, finished with the trace of the unstruck run, finished with
// another, and did not finish (02, No. 4).
#[repr(C)]
#[derive(Clone, Copy)]
pub struct Swept {
    pub number: u8,
    pub alarms: u32,
    pub same: u32,
    pub other: u32,
    pub unfinished: u32,
}

// The number of 01, and whether any run of the sweep finished with another trace.
#[repr(C)]
#[derive(Clone, Copy)]
pub struct AnyOther {
    pub number: u8,
    pub other: bool,
}
