//! Whether a list derives a name.
ghost use Rattle.std.specs.Prelude.{ℕ, List, Decides};
ghost use Rattle.texts.specs.Shown.{shown};
ghost use Rattle.openings.specs.Answers.{list_of, groups_of};
ghost use Rattle.books.specs.Tables.{Table};
ghost use Rattle.derivations.specs.Derives.{ListDerives};
ghost use Rattle.matching.specs.Alike.{SameTreeAndGroups};

use super::judge::Judge;
use super::places::FirstPlaces;
use names::name::Name;
use names::rule::WordRule;
use openings::opened::Opened;

/// Whether the opened list derives the name, where words are compared by the rule.
pub fn derives<R: WordRule>(opened: &Opened, name: &Name, rule: &R) -> bool
    ensures answer { Decides result (ListDerives (R.same rule.now) (groups_of opened.now) (list_of opened.now) (shown name.now.text)) }
    ensures alike { (table : Table) (text : List ℕ) → SameTreeAndGroups opened.now table text → Decides result (ListDerives (R.same rule.now) table text (shown name.now.text)) }
{
    let mut judge = Judge::new(name, opened, rule);
    judge.judge_groups();
    judge
        .judge_text(opened.list(), FirstPlaces::one())
        .has(0, judge.parts.count())
}
