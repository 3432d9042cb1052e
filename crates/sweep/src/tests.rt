// The map into any writer. What is wanted is what docs/PROGRAMS.md says of 01's listing with v1 = 1 and 20 steps, as tests/independent draws
// it: how every jump in it ends was worked out there by making each.
use cells::rank::Rank;
use compare::spare::Spare;
use machine::table::Runnable;
use picture::{column, frame, function};
use rules::answer::Swept;
use rules::limits::{COUNTERS, VARIABLES};
use std::fmt;
use std::process::Abort;
use std::test::Fail;
use sweeper::table;
use sweeper::unstruck::Unstruck;

#[rattlefmt::skip]
const LISTING: [u8; 140] = [
    33, 0, 0, 0, 2, 0, 0, 0, 0, 0, 1, 0, 0, 0, 0, 0, 0, 0, 0, 0,
    34, 0, 0, 0, 0, 0, 0, 0, 0, 0, 1, 0, 2, 0, 0, 0, 0, 0, 0, 0,
    35, 1, 0, 0, 0, 0, 0, 1, 0, 0, 2, 0, 3, 0, 6, 0, 4, 0, 6, 0,
    33, 3, 0, 1, 0, 0, 0, 0, 0, 0, 3, 0, 0, 0, 0, 0, 0, 0, 0, 0,
    34, 0, 0, 0, 0, 0, 1, 0, 0, 0, 6, 0, 7, 0, 0, 0, 0, 0, 0, 0,
    36, 0, 0, 0, 0, 0, 1, 0, 0, 0, 7, 0, 2, 0, 3, 0, 0, 0, 2, 0,
    40, 0, 0, 0, 0, 0, 0, 0, 0, 0, 4, 0, 5, 0, 0, 0, 0, 0, 0, 0,
];

const VALUES: [u16; VARIABLES] = [0, 1, 0, 0, 0, 0, 0, 0, 0, 0, 0, 0, 0, 0, 0, 0];

const COUNTS: Swept = Swept {
    number: 0,
    alarms: 74,
    same: 15,
    other: 2,
    unfinished: 5,
};

// How the strikes to place 3 end, from each place.
const CELLS_3: [Rank; 7] = [
    Rank::Unfinished,
    Rank::Alarmed,
    Rank::Unfinished,
    Rank::Same,
    Rank::Unfinished,
    Rank::Unfinished,
    Rank::Unfinished,
];

// Up to the picture's looks, and behind them.
fn parts(s: &str) -> Option<(&str, &str)> {
    let (head, tail) = s.split_once("</defs>\n")?;
    let (size, _) = head.split_once("<style>")?;
    Some((size, tail))
}

const SIZE: &str =
    "<svg xmlns=\"http://www.w3.org/2000/svg\" width=\"540\" height=\"300\" viewBox=\"-7 -4 45 25\">
";

const BEGUN: &str =
    "<text class=\"h\" y=\"-2.6\">function 0: struck at the place on the left, to the place above</text>
<rect class=\"n\" width=\"8\" height=\"7\"/>
";

const STOOD: &str = "<path class=\"a\" d=\"M0 0h8v7H0z\"/>
";

const FIFTHS: &str = "<rect class=\"g\" width=\"8\" height=\"7\"/>
";

const COLUMNS: &str = "<path class=\"s\" d=\"M0 0h1v1H0z\"/>
<path class=\"o\" d=\"M0 1h1v1H0z\"/>
<text class=\"l\" x=\"-.4\" y=\"0.8\">0 do</text>
<text class=\"mo\" x=\"8.4\" y=\"1.8\">row 1 done twice</text>
<text class=\"t\" x=\"0.5\" y=\"-.4\">0</text>
<path class=\"s\" d=\"M1 1h1v1H1z\"/>
<path class=\"o\" d=\"M1 0h1v1H1z\"/>
<text class=\"l\" x=\"-.4\" y=\"1.8\">1 tick</text>
<text class=\"mo\" x=\"8.4\" y=\"0.8\">row 1 left out</text>
<path class=\"s\" d=\"M2 2h1v1H2z\"/>
<text class=\"l\" x=\"-.4\" y=\"2.8\">2 test</text>
<path class=\"u\" d=\"M3 0h1v1H3zM3 2h1v1H3zM3 4h1v3H3z\"/>
<path class=\"s\" d=\"M3 3h1v1H3z\"/>
<text class=\"l\" x=\"-.4\" y=\"3.8\">3 do</text>
<text class=\"mu\" x=\"8.4\" y=\"4.8\">row 3 done twice</text>
<path class=\"s\" d=\"M4 3h1v2H4z\"/>
<text class=\"l\" x=\"-.4\" y=\"4.8\">4 tick</text>
<text class=\"ms\" x=\"8.4\" y=\"3.8\">row 3 left out</text>
<path class=\"s\" d=\"M5 5h1v1H5z\"/>
<text class=\"l\" x=\"-.4\" y=\"5.8\">5 leave</text>
<text class=\"t\" x=\"5.5\" y=\"-.4\">5</text>
<path class=\"s\" d=\"M6 6h1v1H6z\"/>
<text class=\"l\" x=\"-.4\" y=\"6.8\">6 ret</text>
";

const COLUMN_3: &str = "<path class=\"u\" d=\"M3 0h1v1H3zM3 2h1v1H3zM3 4h1v3H3z\"/>
<path class=\"s\" d=\"M3 3h1v1H3z\"/>
<text class=\"l\" x=\"-.4\" y=\"3.8\">3 do</text>
<text class=\"mu\" x=\"8.4\" y=\"4.8\">row 3 done twice</text>
";

const ENDED: &str = "<text class=\"t\" x=\"7.5\" y=\"-1.4\">m</text>
<rect class=\"a\" y=\"8\" width=\"1\" height=\"1\"/><text x=\"1.6\" y=\"8.8\">alarm</text>
<rect class=\"s\" y=\"10\" width=\"1\" height=\"1\"/><text x=\"1.6\" y=\"10.8\">finished with the same trace</text>
<rect class=\"o\" y=\"12\" width=\"1\" height=\"1\"/><text x=\"1.6\" y=\"12.8\">finished with another trace</text>
<rect class=\"u\" y=\"14\" width=\"1\" height=\"1\"/><text x=\"1.6\" y=\"14.8\">not finished</text>
<rect class=\"n\" y=\"16\" width=\"1\" height=\"1\"/><text x=\"1.6\" y=\"16.8\">the run never stood there</text>
<text y=\"18.8\">whole sweep: alarm 74, same 15, other 2, unfinished 5</text>
</svg>
";

const NINE_RUNS: &str =
    "<path class=\"u\" d=\"M3 0h1v1H3zM3 2h1v1H3zM3 4h1v1H3zM3 6h1v1H3zM3 8h1v1H3zM3 10h1v1H3zM3 12h1v1H3zM3 14h1v1H3z\"/>
<path class=\"x\" d=\"M3 16h1v1H3z\"/>
<text class=\"l\" x=\"-.4\" y=\"3.8\">3 tick</text>
<text class=\"mu\" x=\"18.4\" y=\"2.8\">row 3 left out</text>
<text class=\"t\" x=\"17.5\" y=\"-1.4\">m</text>
<rect class=\"a\" y=\"18\" width=\"1\" height=\"1\"/><text x=\"1.6\" y=\"18.8\">alarm</text>
<rect class=\"s\" y=\"20\" width=\"1\" height=\"1\"/><text x=\"1.6\" y=\"20.8\">finished with the same trace</text>
<rect class=\"o\" y=\"22\" width=\"1\" height=\"1\"/><text x=\"1.6\" y=\"22.8\">finished with another trace</text>
<rect class=\"u\" y=\"24\" width=\"1\" height=\"1\"/><text x=\"1.6\" y=\"24.8\">not finished</text>
<rect class=\"n\" y=\"26\" width=\"1\" height=\"1\"/><text x=\"1.6\" y=\"26.8\">the run never stood there</text>
<rect class=\"x\" y=\"28\" width=\"1\" height=\"1\"/><text x=\"1.6\" y=\"28.8\">not finished from some of these places</text>
<text y=\"30.8\">whole sweep: alarm 74, same 15, other 2, unfinished 5</text>
</svg>
";

// Takes so many pieces and fails from then on.
#[derive(Drop)]
struct Failing {
    pieces: u32,
    calls: u32,
}

impl fmt::Write for Failing {
    fn write_str(&mut self, _s: &str) -> fmt::Result {
        self.calls = self.calls.saturating_add(1);
        if self.pieces < self.calls {
            return Err(fmt::Error);
        }
        Ok(())
    }
}

// The whole map of function 0.
fn draw<W: fmt::Write>(rt: &impl Abort, page: &mut W) -> fmt::Result {
    assert!(rt; reader::is_hardened(&LISTING));
    let table = Runnable::of(&LISTING);
    let mut trace = [0u16; 20];
    let mut words = [0u16; COUNTERS];
    let mut spare = Spare::new();
    let prepared = table::prepare(&table, VALUES, 20, &mut trace, &mut words, &mut spare);
    let Some(n) = prepared else {
        return Err(fmt::Error);
    };
    let run = Unstruck {
        table: &table,
        variables: VALUES,
        budget: 20,
        trace: &trace[..n as usize],
    };
    let last = function::last_of(&table);
    function::draw(&run, last, COUNTS, &mut words, &mut spare, page)
}

#[test]
fn map_into_a_string(rt: HostRuntime) -> Result<(), Fail> {
    let mut s = String::new(rt.alloc());
    draw(&rt, &mut s)?;
    let (size, tail) = parts(s.as_str()).ok_or("no looks")?;
    assert_eq!(rt; size, SIZE);
    let wanted = format!(in rt.alloc(); "{BEGUN}{STOOD}{FIFTHS}{COLUMNS}{ENDED}")?;
    assert_eq!(rt; tail, wanted.as_str());
    Ok(())
}

#[test]
fn parts_into_a_string(rt: HostRuntime) -> Result<(), Fail> {
    let mut s = String::new(rt.alloc());
    frame::begin(0, 7, &mut s)?;
    column::stood(&CELLS_3, 8, &mut s)?;
    frame::fifths(7, &mut s)?;
    let mixed = column::draw(&LISTING, 0, 3, &CELLS_3, &mut s)?;
    assert!(rt; !mixed, "four runs are drawn one by one");
    frame::end(COUNTS, 7, mixed, &mut s)?;
    let (size, tail) = parts(s.as_str()).ok_or("no looks")?;
    assert_eq!(rt; size, SIZE);
    let wanted = format!(in rt.alloc(); "{BEGUN}{STOOD}{FIFTHS}{COLUMN_3}{ENDED}")?;
    assert_eq!(rt; tail, wanted.as_str());
    Ok(())
}

// Of function 3, whose lines begin with line 1 of the table, the column of place 3: nine runs that do not finish, the ninth in a class of its
// own. By docs/PROGRAMS.md.
#[test]
fn parts_of_another_function(rt: HostRuntime) -> Result<(), Fail> {
    let mut lines = [0u8; 360];
    for (to, from) in lines.iter_mut().zip(LISTING.iter()) {
        *to = *from;
    }
    let mut cells = [Rank::Alarmed; 17];
    for y in 0..9usize {
        cells[2 * y] = Rank::Unfinished;
    }
    let mut s = String::new(rt.alloc());
    frame::begin(3, 17, &mut s)?;
    assert!(rt;
        s.as_str()
            .contains("\">function 3: struck at the place on the left")
    );
    let mut s = String::new(rt.alloc());
    let mixed = column::draw(&lines, 1, 3, &cells, &mut s)?;
    assert!(rt; mixed);
    frame::end(COUNTS, 17, mixed, &mut s)?;
    assert_eq!(rt; s.as_str(), NINE_RUNS);
    Ok(())
}

// The error is answered, and the writer is not called again.
#[test]
fn writer_that_fails(rt: HostRuntime) {
    for pieces in 0..40u32 {
        let mut w = Failing { pieces, calls: 0 };
        assert!(rt; draw(&rt, &mut w).is_err());
        assert_eq!(rt; w.calls, pieces + 1);
    }
    let mut w = Failing {
        pieces: 0,
        calls: 0,
    };
    assert!(rt; frame::begin(0, 7, &mut w).is_err());
    assert!(rt; column::stood(&CELLS_3, 8, &mut w).is_err());
    assert!(rt; frame::fifths(7, &mut w).is_err());
    assert!(rt; column::draw(&LISTING, 0, 3, &CELLS_3, &mut w).is_err());
    assert!(rt; frame::end(COUNTS, 7, false, &mut w).is_err());
    assert_eq!(rt; w.calls, 5);
}
