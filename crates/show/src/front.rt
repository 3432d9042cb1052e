// The front of a step's line: the number of the step, the running function, and where that is.
use console::sheet::Sheet;
use state::machine::Registers;

// `word` says what is counted: rows, or places.
pub fn list<S: Sheet>(h: Registers, word: &[u8], number: u16, page: &mut S) {
    page.named(b"step ", h.steps.into());
    page.named(b" function ", h.function.into());
    page.named(word, number.into());
}
