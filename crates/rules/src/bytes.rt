// Words of two bytes.
ghost use Rattle.std.specs.Prelude.{◌≡◌, ◌+◌, ◌<◌, length};
ghost use Rattle.rules.specs.Bytes.{word_at};

// The word at byte i, low byte first.
pub fn word(bytes: &[u8], i: usize) -> u16
    requires { i + 1 < length bytes.now }
    ensures { result ≡ word_at bytes.now i }
{
    u16::from_le_bytes([bytes[i], bytes[i + 1]])
}
