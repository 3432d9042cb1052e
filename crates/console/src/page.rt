// Standard output by way of a page of 65,536 bytes, which is written out whenever it is full. Where that fails output is lost: what
// comes after is dropped.
ghost use Rattle.std.specs.Prelude.{◌≡◌, ◌≤◌, ◌+◌, ◌↔◌, [], ◌∷◌, length, Some, None, unwrap_or, IsOk, IsSome};
ghost use Rattle.console.specs.Page.{Printed, Named, Flushed};

use crate::output;
use std::fmt;

// How many bytes the page has.
const SIZE: usize = 65536;

// What it holds at its front, as many bytes as `held`, is not written out yet. Output is lost where `held` is none.
#[derive(Drop)]
pub struct Page<'a, P: Print> {
    rt: &'a P,
    text: [u8; SIZE],
    held: Option<usize>,
    ghost within: { unwrap_or held 0 ≤ 65536 },
}

impl<'a, P: Print> Page<'a, P> {
    pub fn new(rt: &'a P) -> Self
        ensures { result.held ≡ Some 0 }
    {
        Page {
            rt,
            text: [0; SIZE],
            held: Some(0),
        }
    }

    // One more byte.
    pub fn put(&mut self, b: u8)
        ensures { Printed (b ∷ []) self.old.held self.old.text self.new.text self.new.held }
    {
        let Some(at) = self.held else {
            return;
        };
        if at < SIZE {
            self.text[at] = b;
            self.held = Some(at + 1);
            return;
        }
        self.flush();
        if self.held.is_some() {
            self.text[0] = b;
            self.held = Some(1);
        }
    }

    // In one piece where it fits, as nearly all does. Compiled into its callers: a word that they know is then a store or two, where byte by
    // byte, with the count in memory, what `run` lists took half as long again.
    #[inline(always)]
    pub fn word(&mut self, w: &[u8])
        ensures { Printed w.now self.old.held self.old.text self.new.text self.new.held }
    {
        if let Some(at) = self.held {
            if w.len() <= SIZE - at {
                self.add(at, w);
                return;
            }
        }
        self.through(w);
    }

    #[inline(always)]
    fn add(&mut self, at: usize, w: &[u8])
        requires { (self.old.held ≡ Some at) × (at + length w.now ≤ 65536) }
        ensures { Printed w.now self.old.held self.old.text self.new.text self.new.held }
    {
        let past = at + w.len();
        self.text[at..past].copy_from_slice(w);
        self.held = Some(past);
    }

    // What does not fit.
    #[inline(never)]
    fn through(&mut self, w: &[u8])
        ensures { Printed w.now self.old.held self.old.text self.new.text self.new.held }
    {
        for b in w {
            self.put(*b);
        }
    }

    // By hand, since what write! promises of an error is nothing, and Named says what then holds.
    pub fn number(&mut self, x: u64)
        ensures { Named [] x self.old.held self.old.text self.new.text self.new.held }
    {
        let mut digits = [0u8; 20];
        let k = io::decimal(x, &mut digits);
        self.word(&digits[..k]);
    }

    // A word, and a number behind it.
    pub fn named(&mut self, w: &[u8], x: u64)
        ensures { Named w.now x self.old.held self.old.text self.new.text self.new.held }
    {
        self.word(w);
        self.number(x);
    }

    // Writes out what the page holds.
    pub fn flush(&mut self)
        ensures { Flushed self.old.held self.old.text self.new.text self.new.held }
    {
        let Some(at) = self.held else {
            return;
        };
        self.held = if output::answer(self.rt, &self.text[..at]) {
            Some(0)
        } else {
            None
        };
    }
}

// An error is lost output.
impl<P: Print> fmt::Write for Page<'_, P> {
    ghost write_str_gives = { λ p s q. Printed s p.held p.text q.text q.held };

    fn write_str(&mut self, s: &str) -> fmt::Result
        ensures printed { Printed s.now self.old.held self.old.text self.new.text self.new.held }
        ensures lost { IsOk result ↔ IsSome self.new.held }
        ensures ok { IsOk result
            → Printed s.now self.old.held self.old.text self.new.text self.new.held }
    {
        self.word(s.as_bytes());
        if self.held.is_none() {
            return Err(fmt::Error);
        }
        Ok(())
    }
}
