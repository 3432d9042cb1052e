// What may still strike a run that is made step by step, as the rest of it sees it: a jump before step k is one before step k - 1 of what
// comes after a step.
ghost use Rattle.std.specs.Prelude.{◌≡◌, ◌<◌};
ghost use Rattle.rules.specs.Strike.{Jump};
ghost use Rattle.show.specs.Due.{is_due_lem, place_of, later, left_after_lem};

use rules::strike::Jump;

// Whether the jump comes before the next step.
pub fn is_due(s: Option<Jump>) -> bool
    ensures { result ≡ is_due_lem s }
{
    match s {
        None => false,
        Some((k, _)) => k == 0,
    }
}

pub fn place_of(s: Option<Jump>) -> u16
    ensures { result ≡ place_of s }
{
    match s {
        None => 0,
        Some((_, place)) => place,
    }
}

// After the jump that was due, or after a step.
pub fn later(s: Option<Jump>) -> Option<Jump>
    ensures { result ≡ later s }
{
    match s {
        None => None,
        Some((k, place)) => earlier(k, place),
    }
}

fn earlier(k: u16, place: u16) -> Option<Jump>
    ensures { result ≡ later (Jump k place) }
{
    if k == 0 {
        return None;
    }
    Some((k - 1, place))
}

// The steps that are then left: a jump is none.
pub fn left_after(left: u16, s: Option<Jump>) -> u16
    requires { 0 < left }
    ensures { result ≡ left_after_lem left s }
{
    if is_due(s) {
        return left;
    }
    left - 1
}
