// The numbers of 01, "What turns a call away".
ghost use Rattle.std.specs.Prelude.{◌≡◌};
ghost use Rattle.rules.specs.Refusal.{refusal_number, number_of};

use crate::refusal::Refusal;

impl From<Refusal> for u8 {
    ghost from_gives = { λ r n. n ≡ refusal_number r };

    fn from(r: Refusal) -> u8 {
        r as u8
    }
}

// Accepted is 0.
pub fn of_verdict(v: Result<(), Refusal>) -> u8
    ensures { result ≡ number_of v }
{
    match v {
        Ok(()) => 0,
        Err(r) => u8::from(r),
    }
}
