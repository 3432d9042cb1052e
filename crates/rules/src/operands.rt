// What a row of any kind has beside its kind, and what a do or a test line copies of its row (01, "The source table").
#[derive(Clone, Copy)]
pub struct Operands {
    // The row's byte, and no enum: a row may have any, and a line copies it.
    pub op: u8,
    pub p: u8,
    pub q: u8,
    pub n: u16,
}
