// Standard error as text is written to it. What can't be written is dropped, and nothing is said of it.
use std::fmt;

#[derive(Clone, Copy)]
pub struct StandardError;

// By io, and not by eprint!, which takes a handle: what a caller is asked for is Print or Env alone.
impl fmt::Write for StandardError {
    fn write_str(&mut self, s: &str) -> fmt::Result {
        io::write_all(2, s.as_bytes());
        Ok(())
    }
}
