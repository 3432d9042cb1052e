// What stands around the columns: the head with the classes and patterns, the grid, and the legend.
ghost use Rattle.std.specs.Prelude.{◌≤◌};
ghost use Rattle.rules.specs.Limits.{max_lines};

use console::sheet::{Sheet, Written};
use rules::answer::Swept;
use std::fmt;

// The size of a function of m lines: 12 pixels a cell.
fn open<S: Sheet>(m: u16, page: &mut S)
    requires { m ≤ max_lines }
{
    let wide = m + 38;
    let high = m + 18;
    page.named(
        b"<svg xmlns=\"http://www.w3.org/2000/svg\" width=\"",
        (12 * wide).into(),
    );
    page.named(b"\" height=\"", (12 * high).into());
    page.named(b"\" viewBox=\"-7 -4 ", wide.into());
    page.named(b" ", high.into());
    page.word(b"\">\n");
}

// Each class differs in shape as well as in colour.
fn looks<S: Sheet>(page: &mut S) {
    page.word(
        b"<style>svg{background:#fff}text{font:.9px sans-serif;fill:#222}.l{text-anchor:end}.t{text-anchor:middle}.h{font-size:1.1px}.n{fill:url(#n)}.a{fill:#bfe3c6}.g{fill:url(#g)}.s{fill:url(#s)}.o{fill:url(#o)}.u{fill:url(#u)}.x{fill:url(#x)}.mo{font-weight:bold;fill:#a00}.ms{fill:#777}.mu{fill:#853}</style>
",
    );
    page.word(
        b"<defs>
<pattern id=\"n\" width=\"1\" height=\"1\" patternUnits=\"userSpaceOnUse\"><path d=\"M0 0h1v1H0z\" fill=\"#fff\"/><path d=\"M0 1L1 0\" stroke=\"#aaa\" stroke-width=\".08\"/></pattern>
<pattern id=\"g\" width=\"5\" height=\"5\" patternUnits=\"userSpaceOnUse\"><path d=\"M0 0H5M0 0V5\" stroke=\"#fff\" stroke-width=\".12\"/></pattern>
<pattern id=\"s\" width=\"1\" height=\"1\" patternUnits=\"userSpaceOnUse\"><path d=\"M0 0h1v1H0z\" fill=\"#fff\"/><circle cx=\".5\" cy=\".5\" r=\".2\" fill=\"#246\"/></pattern>
<pattern id=\"o\" width=\"1\" height=\"1\" patternUnits=\"userSpaceOnUse\"><path d=\"M0 0h1v1H0z\" fill=\"#a00\"/><path d=\"M.2 .2L.8 .8M.8 .2L.2 .8\" stroke=\"#fff\" stroke-width=\".16\"/></pattern>
<pattern id=\"u\" width=\"1\" height=\"1\" patternUnits=\"userSpaceOnUse\"><path d=\"M0 0h1v1H0z\" fill=\"#f5b83d\"/><path d=\"M0 .25H1M0 .75H1\" stroke=\"#743\" stroke-width=\".16\"/></pattern>
<pattern id=\"x\" width=\"1\" height=\"1\" patternUnits=\"userSpaceOnUse\"><path d=\"M0 0h1v1H0z\" fill=\"#bfe3c6\"/><path d=\"M0 .5H1\" stroke=\"#c80\" stroke-width=\".3\"/></pattern>
</defs>
",
    );
}

fn grid<S: Sheet>(class: u8, m: u16, page: &mut S)
    requires { m ≤ max_lines }
{
    page.word(b"<rect class=\"");
    page.put(class);
    page.named(b"\" width=\"", (m + 1).into());
    page.named(b"\" height=\"", m.into());
    page.word(b"\"/>\n");
}

// Up to the grid, all of it as if the run had never stood there.
pub fn begin_on<S: Sheet>(function: u8, m: u16, page: &mut S)
    requires { m ≤ max_lines }
{
    open(m, page);
    looks(page);
    page.named(b"<text class=\"h\" y=\"-2.6\">function ", function.into());
    page.word(b": struck at the place on the left, to the place above</text>\n");
    grid(b'n', m, page);
}

pub fn begin<W: fmt::Write>(function: u8, m: u16, page: &mut W) -> fmt::Result
    requires { m ≤ max_lines }
{
    let mut written = Written::new(page);
    begin_on(function, m, &mut written);
    written.result
}

// A line for every five places.
pub fn fifths_on<S: Sheet>(m: u16, page: &mut S)
    requires { m ≤ max_lines }
{
    grid(b'g', m, page);
}

pub fn fifths<W: fmt::Write>(m: u16, page: &mut W) -> fmt::Result
    requires { m ≤ max_lines }
{
    let mut written = Written::new(page);
    fifths_on(m, &mut written);
    written.result
}

fn entry<S: Sheet>(class: u8, words: &[u8], y: u16, page: &mut S) {
    page.word(b"<rect class=\"");
    page.put(class);
    page.named(b"\" y=\"", y.into());
    page.named(
        b"\" width=\"1\" height=\"1\"/><text x=\"1.6\" y=\"",
        y.into(),
    );
    page.word(b".8\">");
    page.word(words);
    page.word(b"</text>\n");
}

fn legend<S: Sheet>(m: u16, page: &mut S)
    requires { m ≤ max_lines }
{
    entry(b'a', b"alarm", m + 1, page);
    entry(b's', b"finished with the same trace", m + 3, page);
    entry(b'o', b"finished with another trace", m + 5, page);
    entry(b'u', b"not finished", m + 7, page);
    entry(b'n', b"the run never stood there", m + 9, page);
}

fn counts<S: Sheet>(r: Swept, y: u16, page: &mut S) {
    page.named(b"<text y=\"", y.into());
    page.named(b".8\">whole sweep: alarm ", r.alarms.into());
    page.named(b", same ", r.same.into());
    page.named(b", other ", r.other.into());
    page.named(b", unfinished ", r.unfinished.into());
    page.word(b"</text>\n</svg>\n");
}

// Behind the columns. The class for many runs is told only where one of them has it.
pub fn end_on<S: Sheet>(r: Swept, m: u16, mixed: bool, page: &mut S)
    requires { m ≤ max_lines }
{
    page.named(b"<text class=\"t\" x=\"", m.into());
    page.word(b".5\" y=\"-1.4\">m</text>\n");
    legend(m, page);
    if mixed {
        entry(
            b'x',
            b"not finished from some of these places",
            m + 11,
            page,
        );
        counts(r, m + 13, page);
        return;
    }
    counts(r, m + 11, page);
}

pub fn end<W: fmt::Write>(r: Swept, m: u16, mixed: bool, page: &mut W) -> fmt::Result
    requires { m ≤ max_lines }
{
    let mut written = Written::new(page);
    end_on(r, m, mixed, &mut written);
    written.result
}
