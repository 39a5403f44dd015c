//! Judging texts: brackets recurse, everything else is read from left to right, and each group of an opened list is
//! judged after all that it leads to.
ghost use Rattle.std.specs.Prelude.{◌≡◌, ℕ, ◌+◌, ◌<◌, ◌≤◌, true, ◌↔◌, List, length, MatchOption};
ghost use Rattle.positions.specs.Places.{Has};
ghost use Rattle.texts.specs.Shown.{shown};
ghost use Rattle.names.specs.Names.{Part};
ghost use Rattle.lists.specs.Trees.{Atom, atom, named};
ghost use Rattle.lists.specs.Lexemes.{sign};
ghost use Rattle.name_parts.specs.Texts.{text_of};
ghost use Rattle.derivations.specs.Derives.{AtomDerives, ItemDerives, GroupOf};

use super::places::FirstPlaces;
use super::reading::Reading;
use super::step::Step;
use links::MAX_GROUPS;
use lists::list::AccessList;
use lists::token::Token;
use lists::walk::ListTokens;
use name_parts::{Mark, NameParts};
use names::name::Name;
use names::rule::WordRule;
use openings::opened::Opened;
use positions::Positions;
use runs::Runs;

/// Judges the texts of an opened list against one name, over what each group derives that has been judged. Words are
/// compared by a rule.
#[derive(Drop)]
pub(crate) struct Judge<'n, 'o, 'r, R> {
    pub(crate) parts: NameParts<'n>,
    pub(crate) opened: &'o Opened,
    pub(crate) rule: &'r R,
    pub(crate) groups: [Option<Runs>; MAX_GROUPS],
}

impl<'n, 'o, 'r, R: WordRule> Judge<'n, 'o, 'r, R> {
    ghost use Rattle.matching.specs.Judging.{ForParts, table_of, Means, StepMeans, Derived, GroupReady, JudgesText, Judges};
    ghost use Rattle.matching.specs.Ordering.{IsJudged, Goes};

    /// A judge that has judged no group yet.
    pub(crate) fn new(name: &'n Name, opened: &'o Opened, rule: &'r R) -> Judge<'n, 'o, 'r, R>
        ensures name { text_of result.parts ≡ shown name.now.text }
        ensures list { result.opened.now ≡ opened.now }
        ensures rule { result.rule.now ≡ rule.now }
        ensures none { (k : ℕ) → IsJudged result k → ⊥ }
    {
        Judge {
            parts: NameParts::of(name),
            opened,
            rule,
            groups: [None; MAX_GROUPS],
        }
    }

    /// The places of the name: before each part, and after the last.
    pub(crate) fn places(&self) -> FirstPlaces
        ensures { ForParts self.now (λ ps. result.count ≡ length ps + 1) }
    {
        FirstPlaces {
            count: self.parts.count() + 1,
        }
    }

    // All the places of the name.
    fn everywhere(&self) -> Positions
        ensures { ForParts self.now (λ ps. (i : ℕ) → Has result.digits i ↔ (i < length ps + 1)) }
    {
        self.places().set()
    }

    // The step of an atom.
    fn atom(&self, token: Token<'_>) -> Step
        ensures { ForParts self.now (λ ps. (a : Atom) → sign token.entry ≡ atom a → StepMeans ps (AtomDerives (R.same self.now.rule.now) a) result) }
    {
        match token {
            Token::Word(bytes) => {
                Step::Part(self.parts.places_of(bytes, self.everywhere(), self.rule))
            }
            Token::Dot => Step::Part(self.parts.marks(Mark::Dot)),
            Token::At => Step::Part(self.parts.marks(Mark::At)),
            Token::Plus => Step::Part(self.parts.marks(Mark::Plus)),
            Token::Any => Step::Runs(*self.parts.partial_names()),
            _ => Step::Part(Positions::empty()),
        }
    }

    // What the group of a name derives, where it is known and has been judged.
    fn judged(&self, name: &[u8]) -> Option<&Runs>
        ensures { (ps : List Part) (ready : GroupReady R.same self.now ps name.now) → MatchOption result ⊥ (λ runs. Means ps (Derived R.same self.now ready.tree) (length ps + 1) runs.now) }
    {
        let k = self.opened.known().number_of(name)?;
        self.groups[k].as_ref()
    }

    // The step of a reference to a group.
    fn group(&self, name: &[u8]) -> Step
        ensures { (ps : List Part) → GroupReady R.same self.now ps name.now → StepMeans ps (ItemDerives (R.same self.now.rule.now) (GroupOf (table_of self.now)) (named name.now)) result }
    {
        self.judged(name)
            .map_or(Step::Part(Positions::empty()), |runs| Step::Runs(*runs))
    }

    // That the text stays is a clause: it is what the call leaves of the tokens that it is lent.
    // Judges the list whose tokens come next, up to and with the `)` that closes it, or to the end, from the first
    // places.
    fn judge(&self, tokens: &mut ListTokens<'_>, starts: FirstPlaces) -> Runs
        ensures kept { tokens.new.text.now ≡ tokens.old.text.now }
        ensures onward { tokens.old.at ≤ tokens.new.at }
        ensures judged { Judges R.same self.now tokens.old.text.now tokens.old.at tokens.new.at starts.count result }
    {
        let mut reading = Reading::new(starts);
        // No `for`: a bracket lends the tokens on to the call that judges it.
        while let Some(lexeme) = tokens.next() {
            match lexeme.token {
                Token::Open => reading.push(Step::Runs(self.judge(tokens, self.places()))),
                Token::Close => return reading.finish(),
                Token::Star => reading.star(self.places()),
                Token::Bar => reading.bar(),
                Token::Group(name) => reading.push(self.group(name)),
                token => reading.push(self.atom(token)),
            }
        }
        reading.finish()
    }

    /// Judges a whole text from the first places.
    pub(crate) fn judge_text(&self, list: &AccessList, starts: FirstPlaces) -> Runs
        ensures { JudgesText R.same self.now (shown list.now.text) starts.count result }
    {
        self.judge(&mut list.tokens(), starts)
    }

    // That a group's number is one of the list is a clause here: a type for it would have to hold the opened list too.
    // Whether a group has been judged.
    fn is_judged(&self, k: usize) -> bool
        requires { k < length (table_of self.now) }
        ensures { (result ≡ true) ↔ IsJudged self.now k }
    {
        self.groups[k].is_some()
    }

    // Judges a group after all that it leads to.
    fn judge_group(&mut self, k: usize)
        requires { k < length (table_of self.old) }
        ensures goes { Goes R.same self.old self.new }
        ensures here { IsJudged self.new k }
    {
        if self.is_judged(k) {
            return;
        }
        for m in self.opened.leads().row(k) {
            self.judge_group(m);
        }
        let runs = self.judge_text(&self.opened.texts()[k], self.places());
        self.groups[k] = Some(runs);
    }

    /// Judges every group.
    pub(crate) fn judge_groups(&mut self)
        ensures goes { Goes R.same self.old self.new }
        ensures all { (k : ℕ) → k < length (table_of self.new) → IsJudged self.new k }
    {
        // By number: a group's place among the texts is all that is asked of it.
        for k in 0..self.opened.texts().len() {
            self.judge_group(k);
        }
    }
}
