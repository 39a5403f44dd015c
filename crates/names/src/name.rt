//! Names, and the partial names that calls are given.
ghost use Rattle.std.specs.Prelude.{◌≡◌, ℕ, ◌-◌, Option, MatchResult, length};
ghost use Rattle.std.specs.Iterator.{at_most};
ghost use Rattle.faults.specs.Answers.{Refused};
ghost use Rattle.faults.specs.Lawful.{Checked};
ghost use Rattle.texts.specs.Shown.{shown};
ghost use Rattle.names.specs.Words.{count_of};
ghost use Rattle.names.specs.Names.{LawfulName, LawfulPartial, OneRow, PartsOf};
ghost use Rattle.names.specs.Faults.{NameFault, PartialFault, mark_byte};
ghost use Rattle.names.specs.Parts.{Walks};
ghost use Rattle.names.specs.declared.part.Part.{Part as WalkedPart};
ghost use Rattle.names.specs.declared.part.Parts.{Parts};

use super::joint::{check_joined, is_mark, nth_mark};
use super::limit::copy_within;
use super::part::Parts;
use faults::fault::Fault;
use faults::kind::Kind;
use faults::lawful::LawfulText;
use texts::Text;

/// The most bytes that a name has.
pub const MAX_NAME_BYTES: usize = 255;

/// The most parts that a name has, words and marks.
pub const MAX_NAME_PARTS: usize = 63;

// The most marks that a name has: every second part is one.
const MAX_MARKS: usize = MAX_NAME_PARTS / 2;

/// The most bytes of a partial name that a call is given.
pub const MAX_PARTIAL_BYTES: usize = 64;

/// A lawful name.
#[derive(Clone, Copy, Debug, PartialEq, Eq)]
pub struct Name {
    text: Text<MAX_NAME_BYTES>,
    marks: usize,
    ghost lawful: { ∥ LawfulName (shown text) ∥₁ },
    ghost counted: { marks ≡ count_of mark_byte (shown text) },
}

// Checks that the text is a name, and answers how many marks it has.
fn check_name(text: &[u8]) -> Result<usize, Fault>
    ensures { MatchResult result (λ marks. LawfulName text.now × (marks ≡ count_of mark_byte text.now)) (Refused (LawfulName text.now) (NameFault text.now)) }
{
    if text.len() > MAX_NAME_BYTES {
        return Err(Fault::at(Kind::NameTooLong, MAX_NAME_BYTES));
    }
    let marks = check_joined(text, is_mark)?;
    if marks > MAX_MARKS {
        let place = nth_mark(text, MAX_MARKS).unwrap();
        return Err(Fault::at(Kind::NameTooLong, place));
    }
    Ok(marks)
}

impl LawfulText for Name {
    ghost shows = { λ n. shown n.text };

    ghost lawful = { LawfulName };

    ghost faulty = { NameFault };

    fn new(text: &[u8]) -> Result<Name, Fault>
        ensures { Checked (λ n. shown n.text) LawfulName NameFault text.now result }
    {
        let marks = check_name(text)?;
        let text = Text::copy_of(text).unwrap();
        Ok(Name { text, marks })
    }

    fn as_bytes(&self) -> &[u8]
        ensures { result.now ≡ shown self.now.text }
    {
        Text::as_bytes(&self.text)
    }
}

impl Name {
    /// How many parts the name has, words and marks.
    #[tactic(auto, using(crate::proofs::Deciding::marks_few, crate::proofs::Checks::parts_counted))]
    pub fn part_count(&self) -> usize
        ensures { PartsOf (shown self.now.text) result }
    {
        2 * self.marks + 1
    }

    /// A walk over the parts of the name, from its front.
    pub fn parts<'a>(&'a self) -> Parts<'a>
        ensures text { result.text.now ≡ shown self.now.text }
        ensures start { result.at ≡ 0 }
        ensures row { OneRow (shown self.now.text) }
        ensures starts { (s : Parts) → ⟦<Parts<'a> as Iterator>⟧.can_next s }
        ensures steps { (s t : Parts) (given : Option (ℕ × WalkedPart)) → ⟦<Parts<'a> as Iterator>⟧.next_gives s given t → Walks s.text.now s.at given t.text.now t.at }
        ensures ends { (s : Parts) → ⟦<Parts<'a> as Iterator>⟧.remaining s ≡ at_most (length s.text.now - s.at) }
    {
        Parts {
            text: self.as_bytes(),
            at: 0,
        }
    }
}

/// A lawful partial name: a program, a role or a permission.
#[derive(Clone, Copy, Debug, PartialEq, Eq)]
pub struct PartialName {
    text: Text<MAX_PARTIAL_BYTES>,
    ghost lawful: { ∥ LawfulPartial (shown text) ∥₁ },
}

impl LawfulText for PartialName {
    ghost shows = { λ n. shown n.text };

    ghost lawful = { LawfulPartial };

    ghost faulty = { PartialFault };

    fn new(text: &[u8]) -> Result<PartialName, Fault>
        ensures { Checked (λ n. shown n.text) LawfulPartial PartialFault text.now result }
    {
        let held = copy_within::<MAX_PARTIAL_BYTES>(text, Kind::NameTooLong)?;
        check_joined(text, |b| b == b'.')?;
        Ok(PartialName { text: held })
    }

    fn as_bytes(&self) -> &[u8]
        ensures { result.now ≡ shown self.now.text }
    {
        self.text.as_bytes()
    }
}
