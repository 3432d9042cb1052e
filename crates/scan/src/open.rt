// What is open at a row, and what a row of each kind does to it or why it is turned away.
ghost use Rattle.std.specs.Prelude.{◌≡◌, ◌<◌};
ghost use Rattle.scan.specs.Standing.{loops_without_lem, Sane};
ghost use Rattle.scan.specs.Next.{PlainOk, JumpOk, EnterOk, NextOk};

use rows::kind::{ELSE, FUNCTION, IF, LOOP};
use rules::kind::Kind;
use rules::limits::{CONSTRUCTS, FUNCTIONS, REGIONS};
use rules::refusal::Refusal;

// The open parts and the loop bodies among them, the regions opened in the running function, and the functions opened.
// Beside it goes a byte for each open part, the function's body first: the kind byte of the row that opened it.
#[derive(Clone, Copy, Default)]
pub struct Standing {
    pub depth: usize,
    pub loops: usize,
    pub opened: usize,
    pub count: usize,
}

// A row that opens and closes nothing.
pub fn plain(s: Standing) -> Result<Standing, Refusal>
    ensures { PlainOk s result }
{
    if s.depth == 0 {
        return Err(Refusal::Misplaced);
    }
    Ok(s)
}

// A break or a continue. As short as `plain`, by another number.
fn jump(s: Standing) -> Result<Standing, Refusal>
    ensures { JumpOk s result }
{
    if s.loops == 0 {
        return Err(Refusal::Misplaced);
    }
    Ok(s)
}

// A function's body opens.
fn begin(s: Standing, parts: &mut [u8]) -> Result<Standing, Refusal>
    requires { Sane s parts.old }
    ensures { NextOk Kind.Function s parts.old parts.new result }
{
    if s.depth != 0 {
        return Err(Refusal::Misplaced);
    }
    if s.count >= FUNCTIONS {
        return Err(Refusal::TooManyFunctions);
    }
    parts[0] = FUNCTION;
    Ok(Standing {
        depth: 1,
        loops: 0,
        opened: 1,
        count: s.count + 1,
    })
}

// A then part or a loop body opens: its byte, and the loop bodies that are open then.
fn enter(part: u8, loops: usize, s: Standing, parts: &mut [u8]) -> Result<Standing, Refusal>
    requires { Sane s parts.old }
    ensures { EnterOk part loops s parts.old parts.new result }
{
    if s.depth == 0 {
        return Err(Refusal::Misplaced);
    }
    if s.depth > CONSTRUCTS {
        return Err(Refusal::TooManyParts);
    }
    if s.opened >= REGIONS {
        return Err(Refusal::TooManyParts);
    }
    let inner = s.depth;
    parts[inner] = part;
    Ok(Standing {
        depth: inner + 1,
        loops,
        opened: s.opened + 1,
        ..s
    })
}

// The else part takes the place of the then part.
pub fn turn(s: Standing, parts: &mut [u8]) -> Result<Standing, Refusal>
    requires { Sane s parts.old }
    ensures { NextOk Kind.Else s parts.old parts.new result }
{
    if s.depth == 0 {
        return Err(Refusal::Misplaced);
    }
    let inner = s.depth - 1;
    if parts[inner] != IF {
        return Err(Refusal::Misplaced);
    }
    if s.opened >= REGIONS {
        return Err(Refusal::TooManyParts);
    }
    parts[inner] = ELSE;
    Ok(Standing {
        opened: s.opened + 1,
        ..s
    })
}

// The loop bodies that are open once this part is closed.
fn loops_without(part: u8, loops: usize) -> usize
    requires { part ≡ 5 → 0 < loops }
    ensures { result ≡ loops_without_lem part loops }
{
    if part == LOOP {
        return loops - 1;
    }
    loops
}

// The innermost part closes.
pub fn close(s: Standing, parts: &mut [u8]) -> Result<Standing, Refusal>
    requires { Sane s parts.old }
    ensures { NextOk Kind.End s parts.old parts.new result }
{
    if s.depth == 0 {
        return Err(Refusal::Misplaced);
    }
    let inner = s.depth - 1;
    let loops = loops_without(parts[inner], s.loops);
    Ok(Standing {
        depth: inner,
        loops,
        ..s
    })
}

// A row of this kind; Unknown stands for a row with a wrong field.
pub fn step(kind: Kind, s: Standing, parts: &mut [u8]) -> Result<Standing, Refusal>
    requires { Sane s parts.old }
    ensures { NextOk kind s parts.old parts.new result }
{
    match kind {
        Kind::Function => begin(s, parts),
        Kind::Do | Kind::Call => plain(s),
        Kind::If => enter(IF, s.loops, s, parts),
        Kind::Else => turn(s, parts),
        Kind::Loop => enter(LOOP, s.loops + 1, s, parts),
        Kind::End => close(s, parts),
        Kind::Break | Kind::Continue => jump(s),
        Kind::Unknown => Err(Refusal::WrongField),
    }
}
