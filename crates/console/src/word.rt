// Words of the command line.
ghost use Rattle.std.specs.Prelude.{◌≡◌, nat_eq, option_map};
ghost use Rattle.std.specs.Cmp.Lexicographic.{pointwise};
ghost use Rattle.console.specs.Word.{skip_of};

// What the word has behind the name, where it begins with it. Byte by byte, and not by the library's method, so that an edit can turn the
// comparison alone.
pub fn skip<'a>(word: &'a [u8], name: &[u8]) -> Option<&'a [u8]>
    ensures { option_map (λ rest. rest.now) result ≡ skip_of word.now name.now }
{
    if word.len() < name.len() {
        return None;
    }
    for i in 0..name.len() {
        if word[i] != name[i] {
            return None;
        }
    }
    Some(&word[name.len()..])
}

// Whether the word is the name. Of an arm for a byte string no more than its length is known, so that a match would promise less.
pub fn is(word: &[u8], name: &[u8]) -> bool
    ensures { result ≡ pointwise nat_eq word.now name.now }
{
    word == name
}
