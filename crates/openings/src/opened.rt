//! Opened lists.
ghost use Rattle.std.specs.Prelude.{◌≡◌, length};
ghost use Rattle.openings.specs.Opened.{names_of, texts_of};
ghost use Rattle.openings.specs.Views.{names_in, text_in, texts_in};
ghost use Rattle.openings.specs.KnownNames.{known};
ghost use Rattle.openings.specs.Pairs.{pairs};
ghost use Rattle.openings.specs.Whole.{Whole, Tells};

use super::known::KnownGroups;
use links::{Links, MAX_GROUPS};
use lists::group_name::GroupName;
use lists::list::AccessList;

/// A list with all the groups that it reaches, in the order in which they were met. Its references all lead to one
/// of them, and never in a circle.
// Names and texts stand apart: a name is met before its text is read, and each is lent as a slice of its own.
#[derive(Clone, Copy)]
pub struct Opened {
    pub(crate) list: AccessList,
    pub(crate) names: KnownGroups,
    pub(crate) texts: [AccessList; MAX_GROUPS],
    pub(crate) leads: Links,
    ghost room: { length texts ≡ 32 },
    ghost whole: { ∥ Whole (text_in list) (pairs (known names) (texts_in texts)) ∥₁ },
    ghost counted: { leads.len ≡ length (known names) },
    ghost ordered: { ∥ Tells (pairs (known names) (texts_in texts)) leads ∥₁ },
}

impl Opened {
    ghost use Rattle.openings.specs.Answers.{list_of, groups_of};

    /// The list that was opened.
    pub fn list(&self) -> &AccessList
        ensures { text_in result.now ≡ list_of self.now }
    {
        &self.list
    }

    /// The names of the groups that it reaches, in the order of meeting.
    #[tactic(auto, using(crate::proofs::Viewing::view_names))]
    pub fn names(&self) -> &[GroupName]
        ensures { names_in result.now ≡ names_of (groups_of self.now) }
    {
        self.names.names()
    }

    /// The texts of these groups, in the same order.
    #[tactic(auto, using(crate::proofs::Viewing::view_texts))]
    pub fn texts(&self) -> &[AccessList]
        ensures { texts_in result.now ≡ texts_of (groups_of self.now) }
    {
        &self.texts[..self.names.count]
    }

    /// The names with their numbers.
    #[tactic(auto, using(crate::proofs::Viewing::view_names))]
    pub fn known(&self) -> &KnownGroups
        ensures { known result.now ≡ names_of (groups_of self.now) }
    {
        &self.names
    }

    /// Which group leads to which, by their numbers.
    #[tactic(auto, using(crate::proofs::Viewing::view_count))]
    pub fn leads(&self) -> &Links
        ensures count { result.now.len ≡ length (groups_of self.now) }
        ensures tells { ∥ Tells (groups_of self.now) result.now ∥₁ }
    {
        &self.leads
    }
}
