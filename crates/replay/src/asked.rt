// A line as it is read: a word, decimal numbers with spaces or commas between them, and bytes in hexadecimal.
ghost use Rattle.std.specs.Prelude.{◌≡◌, ◌<◌, ◌≤◌, length};
ghost use Rattle.std.specs.Option.{ForSome};

use crate::call::Call;

#[derive(Clone, Copy)]
pub struct Asked {
    pub call: Call,
    // Of the first word, six at most; how many words came before this one.
    letters: u8,
    words: u8,
    // A number counts up to 65,535. Which one is being read; a line has fewer than there is room for.
    pub numbers: [u16; 32],
    slot: usize,
    // Bytes beyond the buffer are dropped. How many there are, and the first digit of one whose second is to come.
    bytes: [u8; 65536],
    length: usize,
    half: Option<u8>,
    ghost letters_in: { letters ≤ 6 },
    ghost slot_in: { slot < 32 },
    ghost length_in: { length ≤ 65536 },
    ghost half_in: { ForSome half (λ d. d < 16) },
}

impl Asked {
    pub fn new() -> Self {
        Asked {
            call: Call::Read,
            letters: 0,
            words: 0,
            numbers: [0; 32],
            slot: 0,
            bytes: [0; 65536],
            length: 0,
            half: None,
        }
    }

    // The next line. What an earlier one left in the buffers is not looked at.
    pub fn begin(&mut self) {
        self.call = Call::Read;
        self.letters = 0;
        self.words = 0;
        self.slot = 0;
        self.length = 0;
        self.half = None;
    }

    pub fn bytes(&self) -> &[u8] {
        &self.bytes[..self.length]
    }

    pub fn take(&mut self, b: u8) {
        if b == b' ' {
            self.next_word();
        } else if self.words == 0 {
            self.name(b);
        } else if self.words < self.call.words_before_bytes() {
            self.count(b);
        } else {
            self.spell(b);
        }
    }

    fn next_word(&mut self) {
        if self.words == 0 {
            self.numbers[0] = 0;
        } else {
            self.next_number();
        }
        self.words = self.words.saturating_add(1);
    }

    // The next number begins at 0.
    fn next_number(&mut self) {
        if self.slot < 31 {
            self.slot += 1;
            self.numbers[self.slot] = 0;
        }
    }

    fn name(&mut self, b: u8) {
        if self.letters == 6 {
            self.call = self.call.longer();
            return;
        }
        if self.letters == 0 {
            self.call = Call::begun(b);
        }
        self.letters += 1;
    }

    fn count(&mut self, b: u8) {
        if b == b',' {
            self.next_number();
            return;
        }
        let shifted = self.numbers[self.slot].saturating_mul(10);
        self.numbers[self.slot] = shifted.saturating_add(u16::from(digit(b)));
    }

    // No bytes are written `-`.
    fn spell(&mut self, b: u8) {
        if b == b'-' || self.length == self.bytes.len() {
            return;
        }
        match self.half {
            None => self.half = Some(digit(b)),
            Some(high) => {
                self.bytes[self.length] = 16 * high + digit(b);
                self.length += 1;
                self.half = None;
            }
        }
    }
}

// Any other byte counts 0, a capital too, which to_digit would read.
fn digit(b: u8) -> u8
    ensures { result < 16 }
{
    match b {
        b'0'..=b'9' => b - b'0',
        b'a'..=b'f' => b - b'a' + 10,
        _ => 0,
    }
}
