// Puts each line of standard input to the public calls and prints what they give back, every lent buffer included. The lines and
// the answers that they must get are made by tests/independent.
#![tactic(auto)]

mod answer;
mod asked;
mod call;
mod lent;
mod page;
mod runs;
mod show;
mod sweeps;

use asked::Asked;
use lent::Lent;
use page::Page;

// Reads to the end of the input.
fn main() {
    let mut input = io::buffer();
    let mut asked = Asked::new();
    let mut lent = Lent::new();
    let mut page = Page::new();
    for _read in 0..4_000_000_000u32 {
        let n = io::read_full(0, &mut input);
        if n == 0 {
            return;
        }
        take_all(&input[..n], &mut asked, &mut lent, &mut page);
        page.flush();
    }
}

fn take_all(text: &[u8], asked: &mut Asked, lent: &mut Lent, page: &mut Page) {
    for b in text {
        take(*b, asked, lent, page);
    }
}

// One byte: at the end of a line the call is made.
fn take(b: u8, asked: &mut Asked, lent: &mut Lent, page: &mut Page) {
    if b != b'\n' {
        asked.take(b);
        return;
    }
    // A page takes all that is written to it.
    let _ = answer::answer(asked, lent, page);
    asked.begin();
}
