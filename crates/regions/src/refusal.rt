// Why a store refuses.
ghost use Rattle.std.specs.Prelude.{◌≡◌};
ghost use Rattle.regions.specs.Model.{number};

#[derive(Clone, Copy, PartialEq, Eq, Debug)]
pub enum Refusal {
    Denied = 25,
    NoRegion = 26,
    NoWord = 27,
}

impl Refusal {
    pub fn number(self) -> u32
        ensures { result ≡ number self }
    {
        self as u32
    }
}
