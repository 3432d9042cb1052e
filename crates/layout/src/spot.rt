// A row's region, by its number in the function, and the row's value.
ghost use Rattle.std.specs.Prelude.{◌≡◌, ◌-◌};
ghost use Rattle.layout.specs.Spot.{Near};

#[derive(Clone, Copy)]
pub struct Spot {
    pub r: u8,
    pub e: u16,
}

// The number of a region within its function.
pub fn local(region: u16, body: u16) -> u8
    requires { Near region body }
    ensures { result ≡ region - body }
{
    (region - body) as u8
}
