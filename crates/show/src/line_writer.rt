// Any writer as a sheet on which each line is tried: where one can't be written the rest of it is left out, and the next one begins anew.
ghost use Rattle.std.specs.Prelude.{◌≡◌};

use console::sheet::{Sheet, Written};
use std::fmt;

#[derive(Drop)]
pub struct LineWriter<W: fmt::Write> {
    on: Written<W>,
}

impl<W: fmt::Write> LineWriter<W> {
    pub fn new(to: W) -> Self
        ensures { result.on.to ≡ to }
    {
        LineWriter {
            on: Written::new(to),
        }
    }

    pub fn into_inner(self) -> W
        ensures { result ≡ self.on.to }
    {
        self.on.into_inner()
    }
}

impl<W: fmt::Write> Sheet for LineWriter<W> {
    fn put(&mut self, b: u8) {
        self.word(&[b]);
    }

    fn word(&mut self, w: &[u8]) {
        self.on.word(w);
        if w.ends_with(b"\n") {
            self.on.result = Ok(());
        }
    }

    fn number(&mut self, x: u64) {
        self.on.number(x);
    }

    fn named(&mut self, w: &[u8], x: u64) {
        self.word(w);
        self.number(x);
    }
}
