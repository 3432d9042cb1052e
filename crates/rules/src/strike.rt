// What may strike a run (01, "Running"): nothing, or a jump. specs/Form.antt says what each does.
ghost use Rattle.std.specs.Prelude.{◌≡◌};
ghost use Rattle.rules.specs.Form.{strike_by_lem};

use crate::limits::NO_STEP;

// Before this step the running function goes to this place. A pair, and no struct of its own: the definitions take it apart as they
// match.
pub type Jump = (u16, u16);

// The jump of a call, or none.
pub fn strike_by(step: u16, place: u16) -> Option<Jump>
    ensures { result ≡ strike_by_lem step place }
{
    if step == NO_STEP {
        return None;
    }
    Some((step, place))
}
