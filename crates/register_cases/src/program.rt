//! Programs, by name.
ghost use Rattle.std.specs.Prelude.{◌≡◌};
ghost use Rattle.texts.specs.Shown.{shown};

use registers::record::Record;
use texts::Text;

/// A program and how often it was started.
#[derive(Clone, Copy, Debug, PartialEq, Eq)]
pub struct Program {
    pub name: Text<8>,
    pub starts: u32,
}

impl Record for Program {
    type Key = Text<8>;

    ghost keyed = { λ program. shown program.name };

    fn key(&self) -> Text<8>
        ensures { shown result ≡ shown self.now.name }
    {
        self.name
    }
}
