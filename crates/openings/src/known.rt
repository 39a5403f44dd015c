//! The groups that an opening knows.
ghost use Rattle.std.specs.Prelude.{◌≡◌, ℕ, ◌<◌, ◌≤◌, List, [], ◌∷◌, length, take, Decides, MatchOption, MatchResult};
ghost use Rattle.std.specs.List.{position};
ghost use Rattle.std.specs.Str.{bytes_eq};
ghost use Rattle.lists.specs.Bytes.{IsGroupName};
ghost use Rattle.openings.specs.References.{Reference, Refers};
ghost use Rattle.openings.specs.Opening.{Numbered, Known, Meets, Halts, Distinct};
ghost use Rattle.openings.specs.Views.{name_of, names_in, text_in};
ghost use Rattle.openings.specs.Membership.{having};
ghost use Rattle.openings.specs.MetReferences.{AllMet, HaltsIn};

use super::membership::Membership;
use books::group::Group;
use faults::fault::Fault;
use faults::kind::Kind;
use faults::lawful::LawfulText;
use links::MAX_GROUPS;
use lists::group_name::GroupName;
use lists::list::AccessList;
use lists::token::Token;
use positions::Positions;

/// The names of the groups that have been met, in the order of meeting. No name stands twice.
// An array with its count, and no ArrayVec: that is not Copy, as this is.
#[derive(Clone, Copy)]
pub struct KnownGroups {
    pub(crate) names: [GroupName; MAX_GROUPS],
    pub(crate) count: usize,
    ghost few: { count ≤ 32 },
    ghost room: { length names ≡ 32 },
    ghost distinct: { Distinct (names_in (take count names)) },
}

// Where a name stands among others.
fn place_of(names: &[GroupName], name: &[u8]) -> Option<usize>
    ensures { result ≡ position (λ n. bytes_eq (name_of n) name.now) names.now }
{
    names.iter().position(|known| known.as_bytes() == name)
}

impl KnownGroups {
    ghost use Rattle.openings.specs.KnownNames.{known};

    /// No group is known.
    pub(crate) fn new() -> KnownGroups
        ensures { known result ≡ [] }
    {
        KnownGroups {
            names: [Group::spare().name; MAX_GROUPS],
            count: 0,
        }
    }

    /// The names of the groups that are known, in the order of meeting.
    pub(crate) fn names(&self) -> &[GroupName]
        ensures { names_in result.now ≡ known self.now }
    {
        &self.names[..self.count]
    }

    // Whether no further group can be known.
    #[tactic(auto, using(crate::proofs::Holding::known_count))]
    fn is_full(&self) -> bool
        ensures { Decides result (length (known self.now) ≡ 32) }
    {
        self.count == MAX_GROUPS
    }

    /// The number of a group that is known by this name.
    #[tactic(auto, using(crate::proofs::Holding::place_numbered))]
    pub fn number_of(&self, name: &[u8]) -> Option<usize>
        ensures { MatchOption result (Known (known self.now) name.now → ⊥) (λ k. Numbered (known self.now) name.now k) }
    {
        place_of(self.names(), name)
    }

    /// The name of the group with this number.
    pub(crate) fn name_at(&self, k: usize) -> Option<&GroupName>
        ensures { MatchOption result (length (known self.now) ≤ k) (λ n. Numbered (known self.now) (name_of n.now) k) }
    {
        self.names().get(k)
    }

    /// Meets a reference to a group, and answers the group's number; or says why it cannot be met.
    pub(crate) fn meet<M: Membership>(&mut self, name: &[u8], members: &M) -> Result<usize, Kind>
        requires { IsGroupName name.now }
        ensures { MatchResult result (λ k. Meets (having (M.Membership.has members.now)) (known self.old) name.now (known self.new) × Numbered (known self.new) name.now k) (λ kind. ((place : ℕ) (rs : List Reference) → Halts (having (M.Membership.has members.now)) (known self.old) (record { place = place; name = name.now } ∷ rs) kind place)) }
    {
        if let Some(k) = self.number_of(name) {
            return Ok(k);
        }
        if self.is_full() {
            return Err(Kind::TooManyGroups);
        }
        if !members.has(name) {
            return Err(Kind::GroupNotInBook);
        }
        let k = self.count;
        self.names[k] = GroupName::new(name).unwrap();
        self.count += 1;
        Ok(k)
    }

    /// Meets the references of a text one after another, and answers the numbers of the groups that it names; or tells
    /// the first that cannot be met, as a fault.
    pub(crate) fn meet_all<M: Membership>(
        &mut self,
        list: &AccessList,
        members: &M,
    ) -> Result<Positions, Fault>
        ensures { (rs : List Reference) → Refers (text_in list.now) rs → MatchResult result (λ named. AllMet (having (M.Membership.has members.now)) (known self.old) rs (known self.new) named.digits) (λ f. HaltsIn (having (M.Membership.has members.now)) (known self.old) rs f) }
    {
        let mut named = Positions::empty();
        for lexeme in list.tokens() {
            if let Token::Group(name) = lexeme.token {
                let k = self
                    .meet(name, members)
                    .map_err(|kind| Fault::at(kind, lexeme.place))?;
                named = named.insert(k);
            }
        }
        Ok(named)
    }

    /// The groups that a list names, in the order of meeting; or tells the first that cannot be met, as a fault.
    pub(crate) fn named_by<M: Membership>(
        list: &AccessList,
        members: &M,
    ) -> Result<KnownGroups, Fault>
        ensures { MatchResult result (λ k. (named : ℕ) × ((rs : List Reference) → Refers (text_in list.now) rs → AllMet (having (M.Membership.has members.now)) [] rs (known k) named)) (λ f. (rs : List Reference) → Refers (text_in list.now) rs → HaltsIn (having (M.Membership.has members.now)) [] rs f) }
    {
        let mut names = KnownGroups::new();
        names.meet_all(list, members)?;
        Ok(names)
    }
}
