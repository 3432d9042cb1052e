// The public calls, each by its word.

#[derive(Clone, Copy, PartialEq, Eq)]
pub enum Call {
    Check,
    Fault,
    Measure,
    Harden,
    Read,
    Source,
    Total,
    Hardened,
    Whole,
    Other,
}

impl Call {
    // The first letter tells, but for `hardened`, which is longer than `harden`; `H` is short for it.
    pub fn begun(letter: u8) -> Self {
        match letter {
            b'c' => Call::Check,
            b'f' => Call::Fault,
            b'm' => Call::Measure,
            b'h' => Call::Harden,
            b's' => Call::Source,
            b't' => Call::Total,
            b'H' => Call::Hardened,
            b'w' => Call::Whole,
            b'o' => Call::Other,
            _ => Call::Read,
        }
    }

    // What the word means once it has more than six letters.
    pub fn longer(self) -> Self {
        if self == Call::Harden {
            return Call::Hardened;
        }
        self
    }

    // The bytes stand behind this many words; a line of `total` has none.
    pub fn words_before_bytes(self) -> u8 {
        match self {
            Call::Check | Call::Fault | Call::Measure => 1,
            Call::Harden | Call::Read => 2,
            Call::Source | Call::Total => 4,
            Call::Whole | Call::Other => 5,
            Call::Hardened => 7,
        }
    }
}
