//! A fault: its kind, the text that it was found in, and the place there.
ghost use Rattle.std.specs.Prelude.{◌≡◌, Some};
ghost use Rattle.std.specs.Fmt.{DisplaysOnOk};
ghost use Rattle.faults.specs.Printed.{fault_text};

use super::kind::Kind;
use std::error::Error;
use std::fmt;

#[derive(Clone, Copy, Debug, PartialEq, Eq)]
pub struct Fault {
    pub kind: Kind,
    /// Which text of the call: 0, but for an opened group, a role or a second list.
    pub text: usize,
    pub place: usize,
}

impl Fault {
    /// A fault in a call's first text.
    pub fn at(kind: Kind, place: usize) -> Fault
        ensures { result ≡ record { kind = kind; text = 0; place = place } }
    {
        Fault {
            kind,
            text: 0,
            place,
        }
    }

    /// The same fault in another text of the call.
    pub fn in_text(self, text: usize) -> Fault
        ensures { result ≡ record { kind = self.kind; text = text; place = self.place } }
    {
        Fault { text, ..self }
    }
}

impl fmt::Display for Fault {
    ghost output = { λ f. Some (fault_text f) };

    fn fmt<W: fmt::Write>(&self, f: &mut fmt::Formatter<W>) -> fmt::Result
        ensures { DisplaysOnOk W.write_str_gives f.old result (Some (fault_text self.now)) f.new }
    {
        let (number, layer) = (self.kind.number(), self.kind.layer());
        let (text, place) = (self.text, self.place);
        write!(f, "{number} {layer} {text} {place}")
    }
}

impl Error for Fault {}
