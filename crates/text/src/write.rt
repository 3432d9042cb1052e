// Writing a table's listing, and a refusal's line.
ghost use Rattle.std.specs.Prelude.{◌≡◌, [], ◌∷◌, ◌++◌, ◌+◌, ◌*◌, ◌≤◌, ◌<◌, length};
ghost use Rattle.text.specs.Hex.{digit, hex, newline};
ghost use Rattle.text.specs.Listing.{decimal, refused_word, refused_text, listing_text, Listable, Written, Puts};

fn figure(v: u8) -> u8
    requires { v < 16 }
    ensures { result ≡ digit v }
{
    if v < 10 {
        return b'0' + v;
    }
    b'a' - 10 + v
}

// A place and a buffer, and no struct of the two: the texts are stored by steps that answer the next place, and Puts says just that.
fn put(b: u8, at: usize, out: &mut [u8]) -> usize
    requires { at < length out.old }
    ensures { Puts (b ∷ []) at out.old out.new result }
{
    out[at] = b;
    at + 1
}

fn put_hex(x: u8, at: usize, out: &mut [u8]) -> usize
    requires { at + 2 ≤ length out.old }
    ensures { Puts (hex (x ∷ [])) at out.old out.new result }
{
    let next = put(figure(x / 16), at, out);
    put(figure(x % 16), next, out)
}

// A group of bytes on a line of its own.
fn put_line(group: &[u8], at: usize, out: &mut [u8]) -> usize
    requires { at + 2 * length group.now + 1 ≤ length out.old }
    ensures { Puts (hex group.now ++ (newline ∷ [])) at out.old out.new result }
{
    let mut next = at;
    for x in group {
        next = put_hex(*x, next, out);
    }
    out[next] = b'\n';
    next + 1
}

// A line for each group of `width` bytes.
pub fn listing(table: &[u8], width: usize, out: &mut [u8]) -> usize
    requires { Listable width table.now out.old }
    ensures { Written (listing_text width table.now) out.old out.new result }
{
    let mut at = 0;
    for group in table.chunks_exact(width) {
        at = put_line(group, at, out);
    }
    at
}

fn put_decimal(n: u8, at: usize, out: &mut [u8]) -> usize
    requires { at + 3 ≤ length out.old }
    ensures { Puts (decimal n) at out.old out.new result }
{
    if n < 10 {
        return put(b'0' + n, at, out);
    }
    if n < 100 {
        let second = put(b'0' + n / 10, at, out);
        return put(b'0' + n % 10, second, out);
    }
    let second = put(b'0' + n / 100, at, out);
    let third = put(b'0' + n / 10 % 10, second, out);
    put(b'0' + n % 10, third, out)
}

fn put_word(out: &mut [u8]) -> usize
    requires { 8 ≤ length out.old }
    ensures { Puts refused_word 0 out.old out.new result }
{
    out[..8].copy_from_slice(b"refused ");
    8
}

// `refused N` and a newline.
pub fn refusal(number: u8, out: &mut [u8]) -> usize
    requires { 12 ≤ length out.old }
    ensures { Written (refused_text number) out.old out.new result }
{
    let first = put_word(out);
    let last = put_decimal(number, first, out);
    put(b'\n', last, out)
}
