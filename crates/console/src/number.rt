// Decimal numbers.
ghost use Rattle.std.specs.Prelude.{◌≡◌};
ghost use Rattle.console.specs.Number.{number_of};

// The number that these bytes spell, where it is at most 65,535.
pub fn decimal(text: &[u8]) -> Option<u16>
    ensures { result ≡ number_of text.now }
{
    if text.is_empty() {
        return None;
    }
    let mut value: u32 = 0;
    for b in text {
        if !b.is_ascii_digit() {
            return None;
        }
        value = 10 * value + u32::from(*b - b'0');
        if 65535 < value {
            return None;
        }
    }
    Some(value as u16)
}
