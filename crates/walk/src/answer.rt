// What the walkers answer where they turn no row away.
ghost use Rattle.std.specs.Prelude.{◌≡◌};
ghost use Rattle.walk.specs.Walked.{jump_step};

use rules::refusal::Refusal;

// How a sequence of constructs ended: at an end or else row. With it go the rows before that row and the regions opened in the function
// so far.
#[derive(Clone, Copy)]
pub enum Seq {
    AtEnd(usize, usize),
    AtElse(usize, usize),
}

// A construct: so many rows long with so many regions opened since, or none: an end or else row stands there.
#[derive(Clone, Copy)]
pub enum Step {
    Past(usize, usize),
    EndHere,
    ElseHere,
}

// The rest of an if from its else row on: so many rows long with so many regions opened. A pair, and no struct of its own: the
// definitions take it apart as they match.
pub type Rest = (usize, usize);

// A break or a continue.
pub fn jump(opened: usize, in_loop: bool) -> Result<Step, Refusal>
    ensures { result ≡ jump_step opened in_loop }
{
    if in_loop {
        return Ok(Step::Past(1, opened));
    }
    Err(Refusal::Misplaced)
}
