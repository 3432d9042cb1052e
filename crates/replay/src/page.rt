// Standard output by way of a buffer. Nothing more is done where it can't be written.
ghost use Rattle.std.specs.Prelude.{◌≡◌, ◌+◌, ◌≤◌, length};

use std::fmt;

const SIZE: usize = 65536;

#[derive(Drop)]
pub struct Page {
    text: [u8; SIZE],
    held: usize,
    ghost held_in: { held ≤ 65536 },
}

impl Page {
    pub fn new() -> Self {
        Page {
            text: [0; SIZE],
            held: 0,
        }
    }

    pub fn flush(&mut self)
        ensures { self.new.held ≡ 0 }
    {
        io::write_all(1, &self.text[..self.held]);
        self.held = 0;
    }

    // In one piece; only a text that an empty page has no room for goes there byte by byte.
    fn add(&mut self, bytes: &[u8]) {
        if SIZE - self.held < bytes.len() {
            self.flush();
        }
        if bytes.len() <= SIZE - self.held {
            self.add_here(bytes);
            return;
        }
        for b in bytes {
            self.put(*b);
        }
    }

    fn add_here(&mut self, bytes: &[u8])
        requires { self.old.held + length bytes.now ≤ 65536 }
    {
        let past = self.held + bytes.len();
        self.text[self.held..past].copy_from_slice(bytes);
        self.held = past;
    }

    fn put(&mut self, b: u8) {
        if self.held == SIZE {
            self.flush();
        }
        self.text[self.held] = b;
        self.held += 1;
    }
}

impl fmt::Write for Page {
    fn write_str(&mut self, s: &str) -> fmt::Result {
        self.add(s.as_bytes());
        Ok(())
    }
}
