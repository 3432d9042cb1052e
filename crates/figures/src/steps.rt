// The steps of a hardened run, by those of its source's.
ghost use Rattle.std.specs.Prelude.{◌≡◌};
ghost use Rattle.rules.specs.Match.{hardened_steps_lem};

// Where the source run finishes with these steps, dos and calls.
pub fn hardened_steps(steps: u16, dos: u16, calls: u16) -> u32
    ensures { result ≡ hardened_steps_lem steps dos calls }
{
    steps as u32 + dos as u32 + calls as u32
}
