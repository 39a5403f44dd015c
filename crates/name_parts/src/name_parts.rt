//! The parts of a name, by place.
ghost use Rattle.std.specs.Prelude.{◌≡◌, ◌<◌, ◌≤◌};
ghost use Rattle.texts.specs.Shown.{shown};
ghost use Rattle.names.specs.Names.{LawfulName, PartsOf};
ghost use Rattle.name_parts.specs.Marks.{part_of_mark};
ghost use Rattle.name_parts.specs.Outlines.{count_of, OutlineOf, EndOf, BytesAt};
ghost use Rattle.name_parts.specs.Tables.{PlacesOf, WordPlaces, PartialNames};

use super::dotted::dotted_words;
use super::mark::Mark;
use super::outline::Outline;
use faults::lawful::LawfulText;
use names::name::Name;
use names::rule::WordRule;
use positions::Positions;
use runs::Runs;

/// A name, the outline of its parts, and the runs of them that are partial names.
#[derive(Drop)]
pub struct NameParts<'a> {
    pub(crate) text: &'a [u8],
    pub(crate) outline: Outline,
    pub(crate) partial: Runs,
    ghost few: { count_of outline ≤ 63 },
    ghost lawful: { ∥ LawfulName text.now ∥₁ },
    ghost outlined: { ∥ OutlineOf text.now outline ∥₁ },
    ghost spanned: { ∥ PartialNames text.now partial ∥₁ },
}

impl<'a> NameParts<'a> {
    ghost use Rattle.name_parts.specs.Texts.{text_of};

    /// The parts of a name.
    pub fn of(name: &'a Name) -> NameParts<'a>
        ensures { text_of result ≡ shown name.now.text }
    {
        let outline = Outline::of(name);
        let partial = dotted_words(
            outline.starts.len() + 1,
            outline.words,
            outline.marks[Mark::Dot as usize],
        );
        NameParts {
            text: name.as_bytes(),
            outline,
            partial,
        }
    }

    /// How many parts the name has.
    pub fn count(&self) -> usize
        ensures { PartsOf (text_of self.now) result }
    {
        self.outline.starts.len()
    }

    /// The places of a mark.
    pub fn marks(&self, mark: Mark) -> Positions
        ensures { PlacesOf (text_of self.now) (part_of_mark mark) result.digits }
    {
        self.outline.marks[mark as usize]
    }

    // The byte before which the part at a place ends.
    fn end_of(&self, i: usize) -> usize
        requires { i < count_of self.now.outline }
        ensures { EndOf (text_of self.now) i result }
    {
        self.outline
            .starts
            .get(i + 1)
            .copied()
            .unwrap_or(self.text.len())
    }

    // The bytes of the part at a place.
    fn bytes_at(&self, i: usize) -> &[u8]
        requires { i < count_of self.now.outline }
        ensures { BytesAt (text_of self.now) i result.now }
    {
        &self.text[self.outline.starts[i]..self.end_of(i)]
    }

    /// Those of some places that have a word which is the same as this one by the rule.
    pub fn places_of<R: WordRule>(&self, word: &[u8], among: Positions, rule: &R) -> Positions
        ensures { WordPlaces (R.same rule.now) (text_of self.now) word.now among.digits result.digits }
    {
        let mut places = Positions::empty();
        for i in among.common(self.outline.words) {
            if rule.is_same(word, self.bytes_at(i)) {
                places = places.insert(i);
            }
        }
        places
    }

    /// The runs from place to place whose parts are a partial name.
    pub fn partial_names(&self) -> &Runs
        ensures { PartialNames (text_of self.now) result.now }
    {
        &self.partial
    }
}
