// Finding the fault, and printing the answer.
use crate::words;
use console::output;
use console::page::Page;
use rules::answer::Fault;

pub fn answer(rt: &impl Print, rows: &[u8]) {
    // The number is 01's, and 0 is none: the C struct has it so.
    let f = finuraho::fault(rows);
    if f.number == 0 {
        output::answer(rt, b"accepted\n");
        return;
    }
    let mut page = Page::new(rt);
    refused(f, rows, &mut page);
    page.flush();
}

// Here and in words and fields by named and word, whose promises hold where output is lost too.
fn refused<P: Print>(f: Fault, rows: &[u8], page: &mut Page<P>) {
    page.named(b"refused ", f.number.into());
    page.named(b" at row ", f.row as u64);
    page.word(b": ");
    words::put(f, rows, page);
    page.put(b'\n');
}
