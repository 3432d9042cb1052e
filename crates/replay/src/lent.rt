// What the calls are lent: room for an answer, slots for a trace, and counter words.

// What they hold before a call.
pub const BYTE: u8 = 0xa5;

pub const SLOT: u16 = 0xaaaa;

pub const WORD: u16 = 0x5555;

#[derive(Drop)]
pub struct Lent {
    out: [u8; 65536],
    trace: [u16; 65535],
    counters: [u16; 2048],
}

impl Lent {
    pub fn new() -> Self {
        Lent {
            out: [0; 65536],
            trace: [0; 65535],
            counters: [0; 2048],
        }
    }

    pub fn room(&mut self, bytes: u16) -> &mut [u8] {
        let room = &mut self.out[..usize::from(bytes)];
        room.fill(BYTE);
        room
    }

    pub fn slots(&mut self, slots: u16) -> &mut [u16] {
        let trace = &mut self.trace[..usize::from(slots)];
        trace.fill(SLOT);
        trace
    }

    // Slots and counter words, of which there are 2,048.
    pub fn slots_and_words(&mut self, slots: u16, words: u16) -> (&mut [u16], &mut [u16]) {
        let trace = &mut self.trace;
        let counters = &mut self.counters;
        let trace = &mut trace[..usize::from(slots)];
        let counters = &mut counters[..usize::from(words).min(2048)];
        trace.fill(SLOT);
        counters.fill(WORD);
        (trace, counters)
    }
}
