// What is summed up over the rows of a table to tell how much its hardened table takes (02, No. 2).

// Lines; counter values; the regions of the function that is open; the most regions that a function has.
#[derive(Clone, Copy)]
pub struct Sums {
    pub lines: u16,
    pub value: u16,
    pub opened: u16,
    pub most: u16,
}
