// Comparing bytes.
ghost use Rattle.std.specs.Prelude.{◌≡◌, length};
ghost use Rattle.rules.specs.Bytes.{same};

// No way out of the loop before its end: compiled to wide comparisons. The equality of slices has one.
pub fn are_same(xs: &[u8], ys: &[u8]) -> bool
    requires { length xs.now ≡ length ys.now }
    ensures { result ≡ same xs.now ys.now }
{
    let mut equal = true;
    for k in 0..xs.len() {
        equal &= xs[k] == ys[k];
    }
    equal
}
