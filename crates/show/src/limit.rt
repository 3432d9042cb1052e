// The limit that a run met, or the row that overflows, as `show` lists it behind the steps.
use console::sheet::Sheet;
use rules::step::Step;

pub fn list<S: Sheet>(s: Step, page: &mut S) {
    match s {
        Step::Went(_) | Step::Finished | Step::Alarm => {}
        Step::TooManyOpen(n) => {
            page.number(n.into());
            page.word(b" functions are open\n");
        }
        Step::Beyond(last) => {
            page.named(b"the last place is ", last.into());
            page.put(b'\n');
        }
        Step::Overflow(row, _) => {
            page.named(b"row ", row.into());
            page.word(b" overflows\n");
        }
    }
}
