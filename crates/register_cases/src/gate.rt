//! Gates, by number.
ghost use Rattle.std.specs.Prelude.{◌≡◌, [], ◌∷◌};

use registers::record::Record;

/// A gate and how far it is open.
#[derive(Clone, Copy, Debug, PartialEq, Eq)]
pub struct Gate {
    pub number: u32,
    pub height: u8,
}

impl Record for Gate {
    type Key = u32;

    ghost keyed = { λ gate. gate.number ∷ [] };

    fn key(&self) -> u32
        ensures { result ≡ self.now.number }
    {
        self.number
    }
}
