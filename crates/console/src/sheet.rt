// What a text is put on: the page of standard output, or any writer.
ghost use Rattle.std.specs.Prelude.{◌≡◌, [], ◌∷◌, IsOk, IsErr};
ghost use Rattle.console.specs.Page.{Printed, Named};
ghost use Rattle.console.specs.Sheet.{NumberGiven, WordAndNumber};

use crate::page::Page;
use std::fmt;

// What each promises stands at its impl.
pub trait Sheet {
    fn put(&mut self, b: u8);

    fn word(&mut self, w: &[u8]);

    fn number(&mut self, x: u64);

    // A word, and a number behind it.
    fn named(&mut self, w: &[u8], x: u64);
}

// By the page's own methods. Compiled into the callers, so that these run what they would run by the methods themselves.
impl<P: Print> Sheet for Page<'_, P> {
    #[inline(always)]
    fn put(&mut self, b: u8)
        ensures { Printed (b ∷ []) self.old.held self.old.text self.new.text self.new.held }
    {
        Page::put(self, b);
    }

    #[inline(always)]
    fn word(&mut self, w: &[u8])
        ensures { Printed w.now self.old.held self.old.text self.new.text self.new.held }
    {
        Page::word(self, w);
    }

    #[inline(always)]
    fn number(&mut self, x: u64)
        ensures { Named [] x self.old.held self.old.text self.new.text self.new.held }
    {
        Page::number(self, x);
    }

    #[inline(always)]
    fn named(&mut self, w: &[u8], x: u64)
        ensures { Named w.now x self.old.held self.old.text self.new.text self.new.held }
    {
        Page::named(self, w, x);
    }
}

// Any writer as a sheet. Where it has failed it is not called again, and bytes that are no text are a failure too.
#[derive(Drop)]
pub struct Written<W: fmt::Write> {
    to: W,
    pub result: fmt::Result,
}

impl<W: fmt::Write> Written<W> {
    pub fn new(to: W) -> Self
        ensures writer { result.to ≡ to }
        ensures nothing_lost { IsOk result.result }
    {
        Written { to, result: Ok(()) }
    }

    pub fn into_inner(self) -> W
        ensures { result ≡ self.to }
    {
        self.to
    }
}

impl<W: fmt::Write> Sheet for Written<W> {
    fn put(&mut self, b: u8)
        ensures kept { IsErr self.old.result → self.new ≡ self.old }
        ensures written { IsOk self.new.result → W.write_str_gives self.old.to (b ∷ []) self.new.to }
    {
        self.word(&[b]);
    }

    fn word(&mut self, w: &[u8])
        ensures kept { IsErr self.old.result → self.new ≡ self.old }
        ensures written { IsOk self.new.result → W.write_str_gives self.old.to w.now self.new.to }
    {
        if self.result.is_ok() {
            self.result = match str::from_utf8(w) {
                Ok(s) => self.to.write_str(s),
                Err(_) => Err(fmt::Error),
            };
        }
    }

    fn number(&mut self, x: u64)
        ensures kept { IsErr self.old.result → self.new ≡ self.old }
        ensures written { IsOk self.new.result → NumberGiven W.write_str_gives x self.old.to self.new.to }
    {
        let mut digits = [0u8; 20];
        let k = io::decimal(x, &mut digits);
        self.word(&digits[..k]);
    }

    fn named(&mut self, w: &[u8], x: u64)
        ensures kept { IsErr self.old.result → self.new ≡ self.old }
        ensures written { IsOk self.new.result → WordAndNumber W.write_str_gives w.now x self.old.to self.new.to }
    {
        self.word(w);
        self.number(x);
    }
}
