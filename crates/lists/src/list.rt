//! Access lists.
ghost use Rattle.std.specs.Prelude.{◌≡◌, ◌-◌, Option, length};
ghost use Rattle.std.specs.Iterator.{at_most};
ghost use Rattle.faults.specs.Lawful.{Checked};
ghost use Rattle.texts.specs.Shown.{shown};
ghost use Rattle.lists.specs.Texts.{LawfulList, OneReading};
ghost use Rattle.lists.specs.Faults.{ListFault};
ghost use Rattle.lists.specs.Placed.{OnePlacing, Walks};
ghost use Rattle.lists.specs.declared.token.Lexeme.{Lexeme};
ghost use Rattle.lists.specs.declared.walk.ListTokens.{ListTokens};

use super::check::check_list;
use super::walk::ListTokens;
use faults::fault::Fault;
use faults::kind::Kind;
use faults::lawful::LawfulText;
use names::limit::copy_within;
use texts::Text;

/// The most bytes that a list text has.
pub const MAX_LIST_BYTES: usize = 512;

/// A lawful access list.
#[derive(Clone, Copy, Debug, PartialEq, Eq)]
pub struct AccessList {
    text: Text<MAX_LIST_BYTES>,
    ghost lawful: { ∥ LawfulList (shown text) ∥₁ },
}

impl LawfulText for AccessList {
    ghost shows = { λ list. shown list.text };

    ghost lawful = { LawfulList };

    ghost faulty = { ListFault };

    fn new(text: &[u8]) -> Result<AccessList, Fault>
        ensures answer { Checked (λ list. shown list.text) LawfulList ListFault text.now result }
        ensures reading { OneReading text.now }
    {
        let held = copy_within::<MAX_LIST_BYTES>(text, Kind::TextTooLong)?;
        check_list(text)?;
        Ok(AccessList { text: held })
    }

    fn as_bytes(&self) -> &[u8]
        ensures { result.now ≡ shown self.now.text }
    {
        self.text.as_bytes()
    }
}

impl AccessList {
    /// The tokens of the list, from its front.
    pub fn tokens<'a>(&'a self) -> ListTokens<'a>
        ensures text { result.text.now ≡ shown self.now.text }
        ensures start { result.at ≡ 0 }
        ensures placing { OnePlacing (shown self.now.text) }
        ensures starts { (s : ListTokens) → ⟦<ListTokens<'a> as Iterator>⟧.can_next s }
        ensures steps { (s t : ListTokens) (given : Option Lexeme) → ⟦<ListTokens<'a> as Iterator>⟧.next_gives s given t → Walks s.text.now s.at given t.text.now t.at }
        ensures ends { (s : ListTokens) → ⟦<ListTokens<'a> as Iterator>⟧.remaining s ≡ at_most (length s.text.now - s.at) }
    {
        ListTokens {
            text: self.as_bytes(),
            at: 0,
        }
    }
}
