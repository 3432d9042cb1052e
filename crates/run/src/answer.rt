// What a run answers, as four lines, or five in a source run or with a small jump; a long trace takes more.
use console::page::Page;
use rules::answer::Ran;
use slip::amount::Amount;

// Numbers on a line.
const MANY: usize = 20;

// The words of 01 and 02 for an outcome. It comes as a number: the C struct of a run has one.
fn outcome(number: u8) -> &'static str {
    match number {
        0 => " budget spent",
        1 => " finished",
        2 => " alarm",
        3 => " too many open functions",
        4 => " the place is beyond m",
        _ => " overflow",
    }
}

// A space before each number, and the end of the last line. The first number stands on a line that was begun already.
fn list<P: Print>(words: &[u16], page: &mut Page<P>) {
    for (i, word) in words.iter().enumerate() {
        if 0 < i && i % MANY == 0 {
            page.put(b'\n');
        }
        page.named(b" ", u64::from(*word));
    }
    page.put(b'\n');
}

// A trace that fits on its line stands there; a longer one is listed where that was asked.
fn list_trace<P: Print>(rows: &[u16], whole: bool, page: &mut Page<P>) {
    if rows.len() <= MANY {
        page.word(b"\ntrace");
        return list(rows, page);
    }
    page.named(b"\ntrace of ", rows.len() as u64);
    if whole {
        page.word(b" rows\n");
        return list(rows, page);
    }
    page.word(b" rows, listed with the word trace\n");
}

// What a small jump amounts to, in a line; of any other nothing is said.
fn list_amount<P: Print>(amount: Amount, page: &mut Page<P>) {
    match amount {
        Amount::NotSmall => {}
        Amount::Nothing => page.word(b"jump changes nothing\n"),
        Amount::LeavesOut(row) => {
            page.named(b"jump leaves out row ", row.into());
            page.put(b'\n');
        }
        Amount::Twice(row) => {
            page.named(b"jump does row ", row.into());
            page.word(b" twice\n");
        }
    }
}

// The answer of an accepted run, behind the steps. A source run's calls are counted; `whole` lists a long trace too. By named, put and word,
// whose promises hold where output is lost too.
pub fn tell<P: Print>(
    r: Ran,
    whole: bool,
    calls: Option<u16>,
    amount: Amount,
    trace: &[u16; 65535],
    page: &mut Page<P>,
) {
    list_amount(amount, page);
    page.named(b"outcome ", r.outcome.into());
    page.word(outcome(r.outcome).as_bytes());
    page.named(b"\nsteps ", r.steps.into());
    list_trace(&trace[..usize::from(r.traced)], whole, page);
    if let Some(n) = calls {
        page.named(b"calls ", n.into());
        page.put(b'\n');
    }
    page.word(b"variables");
    list(&r.variables, page);
}
