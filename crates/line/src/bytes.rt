// The two bytes of a word.
ghost use Rattle.std.specs.Prelude.{◌≡◌, [], ◌∷◌};
ghost use Rattle.rules.specs.Bytes.{low, high};

// The low byte first.
pub fn spell(x: u16) -> [u8; 2]
    ensures { result ≡ low x ∷ high x ∷ [] }
{
    x.to_le_bytes()
}
