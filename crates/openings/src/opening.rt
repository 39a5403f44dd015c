//! Opening a list step by step.
ghost use Rattle.std.specs.Prelude.{◌≡◌, ℕ, ◌+◌, ◌≤◌, List, [], length, Some, None, Ok, Decides, MatchOption, MatchResult, IfOk, IfErr};
ghost use Rattle.faults.specs.declared.kind.Kind.TheVariants.{TextTooLong};
ghost use Rattle.openings.specs.References.{Reference, Refers};
ghost use Rattle.lists.specs.Texts.{LawfulList};
ghost use Rattle.openings.specs.Opening.{Name, Meaning, MeetsAll, ReadTo};
ghost use Rattle.openings.specs.Circles.{OnCircle};
ghost use Rattle.openings.specs.Opened.{OpenFault, fault_in};
ghost use Rattle.openings.specs.Views.{name_of, text_in, texts_in};
ghost use Rattle.openings.specs.KnownNames.{known};
ghost use Rattle.openings.specs.MetReferences.{Named};
ghost use Rattle.openings.specs.Membership.{Agrees, supposing};
ghost use Rattle.links.specs.declared.links.Links.{Links};
ghost use Rattle.openings.specs.Progress.{Progress, HasTexts, ReadWell};
ghost use Rattle.openings.specs.BackReferences.{Back, FirstBack, Closes};

use super::known::KnownGroups;
use super::membership::Membership;
use super::opened::Opened;
use super::reference::first_reference;
use faults::fault::Fault;
use faults::kind::Kind;
use faults::lawful::LawfulText;
use links::{Links, MAX_GROUPS};
use lists::group_name::GroupName;
use lists::list::{AccessList, MAX_LIST_BYTES};
use lists::token::Token;

/// A list that is being opened: which groups have been met, and the texts of those whose texts have been given.
// Names and texts stand apart, as they do in what is opened of them.
#[derive(Clone, Copy)]
pub struct Opening {
    pub(crate) list: AccessList,
    pub(crate) names: KnownGroups,
    pub(crate) texts: [AccessList; MAX_GROUPS],
    pub(crate) links: Links,
    ghost room: { length texts ≡ 32 },
    ghost within: { links.len ≤ length (known names) },
    ghost well: { ∥ ReadWell (text_in list) (known names) (texts_in texts) links ∥₁ },
}

impl Opening {
    ghost use Rattle.openings.specs.OpeningState.{listed, met, given, Through, Due, Stands, Begun, Gave, Ends};
    ghost use Rattle.openings.specs.Answers.{Answered};

    /// Begins to open a list: meets the groups that it names. Faults: a 33rd group, one that is not there.
    pub fn new<M: Membership>(list: &AccessList, members: &M) -> Result<Opening, Fault>
        ensures answer { (meaning : Meaning) → Agrees [] (M.Membership.has members.now) meaning → MatchResult result (λ o. Through meaning o) (λ f. OpenFault meaning (text_in list.now) f) }
        ensures begun { MatchResult result (λ o. Begun (text_in list.now) (M.Membership.has members.now) o) (λ f. Unit {0}) }
        ensures refused { MatchResult result (λ o. Unit {0}) (λ f. (meaning : Meaning) → Agrees [] (M.Membership.has members.now) meaning → (rs : List Reference) (gs : List Name) → Refers (text_in list.now) rs → MeetsAll meaning [] rs gs → ⊥) }
    {
        let names = KnownGroups::named_by(list, members)?;
        Ok(Opening::of(list, &names))
    }

    /// An opening of the list that has met these groups, which it names, and that has been given no text.
    pub(crate) fn of(list: &AccessList, names: &KnownGroups) -> Opening
        requires { (texts : List (List ℕ)) (links : Links) → links.len ≡ 0 → ReadWell (text_in list.now) (known names.now) texts links }
        ensures list { listed result ≡ text_in list.now }
        ensures met { met result ≡ known names.now }
        ensures none_given { result.links.len ≡ 0 }
    {
        Opening {
            list: *list,
            names: *names,
            texts: [*list; MAX_GROUPS],
            links: Links::new(),
        }
    }

    /// The group whose text is due next, or none where every group that was met has its text.
    #[tactic(auto, using(crate::proofs::States::given_count))]
    pub fn due(&self) -> Option<&GroupName>
        ensures due { MatchOption result (length (met self.now) ≤ length (given self.now)) (λ name. Due self.now (name_of name.now)) }
        ensures read { (meaning : Meaning) → Through meaning self.now → ReadTo meaning (listed self.now) (length (given self.now) + 1) (met self.now) }
        ensures supposing { Through (supposing (given self.now)) self.now }
    {
        self.names.name_at(self.links.len())
    }

    /// The group whose text has this number, from 1 up.
    pub fn group(&self, text: usize) -> Option<&GroupName>
        ensures { MatchOption result ((name : Name) → Stands self.now text name → ⊥) (λ name. Stands self.now text (name_of name.now)) }
    {
        self.names.name_at(text.checked_sub(1)?)
    }

    // Whether every group that was met has its text.
    #[tactic(auto, using(crate::proofs::Holding::known_count))]
    fn is_read(&self) -> bool
        ensures { Decides result (length (met self.now) ≤ self.now.links.len) }
    {
        self.links.len() == self.names.count
    }

    /// The fault that is told where the text that is due is over the limit of a list.
    #[tactic(auto, using(crate::proofs::States::given_count))]
    pub(crate) fn over_limit(&self) -> Fault
        ensures { result ≡ fault_in (length (given self.now) + 1) TextTooLong 512 }
    {
        Fault::at(Kind::TextTooLong, MAX_LIST_BYTES).in_text(self.links.len() + 1)
    }

    /// Gives the text of the group that is due, and meets the groups that it names. Faults, with the number of the
    /// text: those of a list, then a 33rd group, one that is not there. Where no text is due nothing changes, nor on
    /// a refusal.
    pub fn give<M: Membership>(&mut self, text: &[u8], members: &M) -> Result<(), Fault>
        ensures answer { (meaning : Meaning) (name : Name) → Due self.old name → meaning name ≡ Some text.now → Through meaning self.old → Agrees (met self.old) (M.Membership.has members.now) meaning → MatchResult result (λ _. Through meaning self.new) (λ f. OpenFault meaning (listed self.old) f) }
        ensures change { MatchResult result (λ _. (name : Name) → Due self.old name → Gave self.old name text.now (M.Membership.has members.now) self.new) (λ f. self.new ≡ self.old) }
        ensures none_due { length (met self.old) ≤ length (given self.old) → MatchResult result (λ _. self.new ≡ self.old) (λ f. ⊥) }
        ensures refused { MatchResult result (λ _. (name : Name) → Due self.old name → LawfulList text.now) (λ f. (meaning : Meaning) → Agrees (met self.old) (M.Membership.has members.now) meaning → LawfulList text.now → (rs : List Reference) (gs : List Name) → Refers text.now rs → MeetsAll meaning (met self.old) rs gs → ⊥) }
    {
        if self.is_read() {
            return Ok(());
        }
        let k = self.links.len();
        let text = AccessList::new(text).map_err(|fault| fault.in_text(k + 1))?;
        let mut names = self.names;
        let named = names
            .meet_all(&text, members)
            .map_err(|fault| fault.in_text(k + 1))?;
        self.texts[k] = text;
        self.names = names;
        self.links.push(named).unwrap();
        Ok(())
    }

    // The fault of the group of this name, which is due, where there is none: it is told at the first reference to it.
    fn lacking(&self, name: &[u8]) -> Option<Fault>
        ensures { (meaning : Meaning) → Due self.now name.now → HasTexts meaning (given self.now) → meaning name.now ≡ None → MatchOption result ⊥ (λ f. OpenFault meaning (listed self.now) f) }
    {
        if let Some(place) = first_reference(&self.list, name) {
            return Some(Fault::at(Kind::GroupNotInBook, place));
        }
        for (k, text) in self.texts[..self.links.len()].iter().enumerate() {
            if let Some(place) = first_reference(text, name) {
                return Some(Fault::at(Kind::GroupNotInBook, place).in_text(k + 1));
            }
        }
        None
    }

    /// Which group leads to which, where the opening ends well. Faults: a group that is still due is lacking, which is
    /// told at the reference by which it was met; then the first reference on a circle.
    pub(crate) fn leads(&self) -> Result<Links, Fault>
        ensures ends { IfOk result (λ leads. Ends self.now leads) }
        ensures circle { (meaning : Meaning) → length (met self.now) ≤ length (given self.now) → Through meaning self.now → IfErr result (λ f. OpenFault meaning (listed self.now) f) }
        ensures lacking { (meaning : Meaning) (name : Name) → Due self.now name → HasTexts meaning (given self.now) → meaning name ≡ None → MatchResult result (λ _. ⊥) (λ f. OpenFault meaning (listed self.now) f) }
    {
        if let Some(name) = self.due() {
            return Err(self.lacking(name.as_bytes()).unwrap());
        }
        let leads = self.links.closed();
        self.check_circles(&leads)?;
        Ok(leads)
    }

    /// Ends the opening. A group that is still due is lacking, which is told at the reference by which it was met.
    /// Otherwise the first reference on a circle is told, or the list is opened.
    pub fn finish(&self) -> Result<Opened, Fault>
        ensures all_given { (meaning : Meaning) → length (met self.now) ≤ length (given self.now) → Through meaning self.now → Answered meaning (listed self.now) result }
        ensures lacking { (meaning : Meaning) (name : Name) → Due self.now name → HasTexts meaning (given self.now) → meaning name ≡ None → MatchResult result (λ _. ⊥) (λ f. OpenFault meaning (listed self.now) f) }
    {
        let leads = self.leads()?;
        Ok(Opened {
            list: self.list,
            names: self.names,
            texts: self.texts,
            leads,
        })
    }

    // Whether the group of that name is the one at home, or leads to it.
    fn leads_back(&self, name: &[u8], home: usize, leads: &Links) -> bool
        ensures { Decides result (Back (met self.now) leads.now home name.now) }
    {
        self.names
            .number_of(name)
            .is_some_and(|k| k == home || leads.has(k, home))
    }

    // The place of the first reference in the text of the group at home that leads back to it.
    fn first_back(&self, text: &AccessList, home: usize, leads: &Links) -> Option<usize>
        ensures { (rs : List Reference) → Refers (text_in text.now) rs → MatchOption result ((g : Name) → Named rs g → Back (met self.now) leads.now home g → ⊥) (λ place. FirstBack (met self.now) leads.now home rs place) }
    {
        for lexeme in text.tokens() {
            if let Token::Group(name) = lexeme.token {
                if self.leads_back(name, home, leads) {
                    return Some(lexeme.place);
                }
            }
        }
        None
    }

    // Checks that no reference lies on a circle, where every group has its text; tells the first that does, as a fault.
    fn check_circles(&self, leads: &Links) -> Result<(), Fault>
        ensures { (M : Meaning) (list : List ℕ) → Progress M list (length (met self.now)) (met self.now) (texts_in self.now.texts) self.now.links → Closes self.now.links leads.now → MatchResult result (λ _. (i place : ℕ) → OnCircle M (met self.now) i place → ⊥) (λ f. OpenFault M list f) }
    {
        for (k, text) in self.texts[..self.names.count].iter().enumerate() {
            if leads.has(k, k) {
                if let Some(place) = self.first_back(text, k, leads) {
                    return Err(Fault::at(Kind::GroupLeadsToItself, place).in_text(k + 1));
                }
            }
        }
        Ok(())
    }
}
