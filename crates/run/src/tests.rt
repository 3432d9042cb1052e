// The steps of a run into any writer. What is wanted is what tests/independent lists of 01's table with v1 = 1 and 20 steps.
use rules::limits::VARIABLES;
use show::{hardened_steps, source_steps};
use std::fmt;
use std::fmt::Write as _;
use std::test::Fail;

#[rattlefmt::skip]
const ROWS: [u8; 36] = [
    1, 0, 0, 0, 0, 0,
    2, 0, 0, 0, 2, 0,
    5, 1, 0, 0, 0, 0,
    2, 3, 0, 1, 0, 0,
    6, 0, 0, 0, 0, 0,
    6, 0, 0, 0, 0, 0,
];

#[rattlefmt::skip]
const LISTING: [u8; 140] = [
    33, 0, 0, 0, 2, 0, 0, 0, 0, 0, 1, 0, 0, 0, 0, 0, 0, 0, 0, 0,
    34, 0, 0, 0, 0, 0, 0, 0, 0, 0, 1, 0, 2, 0, 0, 0, 0, 0, 0, 0,
    35, 1, 0, 0, 0, 0, 0, 1, 0, 0, 2, 0, 3, 0, 6, 0, 4, 0, 6, 0,
    33, 3, 0, 1, 0, 0, 0, 0, 0, 0, 3, 0, 0, 0, 0, 0, 0, 0, 0, 0,
    34, 0, 0, 0, 0, 0, 1, 0, 0, 0, 6, 0, 7, 0, 0, 0, 0, 0, 0, 0,
    36, 0, 0, 0, 0, 0, 1, 0, 0, 0, 7, 0, 2, 0, 3, 0, 0, 0, 2, 0,
    40, 0, 0, 0, 0, 0, 0, 0, 0, 0, 4, 0, 5, 0, 0, 0, 0, 0, 0, 0,
];

const VALUES: [u16; VARIABLES] = [0, 1, 0, 0, 0, 0, 0, 0, 0, 0, 0, 0, 0, 0, 0, 0];

const STRUCK: &str = "step 0 function 0 place 0 do
step 1 function 0 place 1 tick counter 0 holds 1
step 2 function 0 place 2 test counter 0 holds 2
step 3 function 0 place 3 do
jump to place 6
step 4 function 0 place 6 ret counter 0 holds 3
";

const WITHOUT_TICK: &str = "step 0 function 0 place 0 do
step 1 function 0 place 1step 2 function 0 place 2 test counter 0 holds 2
step 3 function 0 place 3 do
jump to place 6
step 4 function 0 place 6 ret counter 0 holds 3
";

const SOURCE: &str = "step 0 function 0 row 1 do
step 1 function 0 row 2 loop
step 2 function 0 row 3 do
step 3 function 0 row 4 end
step 4 function 0 row 2 loop
step 5 function 0 row 3 do
step 6 function 0 row 4 end
step 7 function 0 row 2 loop
step 8 function 0 row 5 end
";

const WITHOUT_LOOP: &str = "step 0 function 0 row 1 do
step 1 function 0 row 2step 2 function 0 row 3 do
step 3 function 0 row 4 end
step 4 function 0 row 2step 5 function 0 row 3 do
step 6 function 0 row 4 end
step 7 function 0 row 2step 8 function 0 row 5 end
";

#[test]
fn steps_into_a_string(rt: HostRuntime) -> Result<(), Fail> {
    let mut trace = [0u16; 20];
    let mut s = String::new(rt.alloc());
    hardened_steps::list(&LISTING, VALUES, 20, Some((4, 6)), &mut trace, &mut s);
    assert_eq!(rt; s.as_str(), STRUCK);
    let mut s = String::new(rt.alloc());
    let calls = source_steps::tell(&ROWS, VALUES, 20, true, &mut trace, &mut s);
    assert_eq!(rt; calls, 0);
    assert_eq!(rt; s.as_str(), SOURCE);
    Ok(())
}

// Of a table that is refused nothing is listed, nor where that isn't asked.
#[test]
fn nothing_into_a_string(rt: HostRuntime) {
    let mut trace = [0u16; 20];
    let mut s = String::new(rt.alloc());
    hardened_steps::list(&ROWS, VALUES, 20, None, &mut trace, &mut s);
    assert_eq!(rt;
        source_steps::tell(&LISTING, VALUES, 20, true, &mut trace, &mut s),
        0
    );
    assert_eq!(rt;
        source_steps::tell(&ROWS, VALUES, 20, false, &mut trace, &mut s),
        0
    );
    assert_eq!(rt; s.as_str(), "");
}

// Takes any piece but one.
#[derive(Drop)]
struct Refusing {
    taken: String,
    piece: &'static str,
}

impl fmt::Write for Refusing {
    fn write_str(&mut self, s: &str) -> fmt::Result {
        if s == self.piece {
            return Err(fmt::Error);
        }
        self.taken.write_str(s)
    }
}

// The rest of its line is left out, and the next one is tried.
#[test]
fn piece_that_is_refused(rt: HostRuntime) {
    let mut trace = [0u16; 20];
    let mut w = Refusing {
        taken: String::new(rt.alloc()),
        piece: " tick",
    };
    hardened_steps::list(&LISTING, VALUES, 20, Some((4, 6)), &mut trace, &mut w);
    assert_eq!(rt; w.taken.as_str(), WITHOUT_TICK);
    let mut w = Refusing {
        taken: String::new(rt.alloc()),
        piece: " loop\n",
    };
    assert_eq!(rt;
        source_steps::tell(&ROWS, VALUES, 20, true, &mut trace, &mut w),
        0
    );
    assert_eq!(rt; w.taken.as_str(), WITHOUT_LOOP);
}
