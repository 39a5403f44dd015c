//! What a walk over a name notes of its parts.
ghost use Rattle.std.specs.Prelude.{◌<◌};
ghost use Rattle.texts.specs.Shown.{shown};
ghost use Rattle.names.specs.Parts.{part_of};
ghost use Rattle.name_parts.specs.Marks.{MarkOf};
ghost use Rattle.name_parts.specs.Outlines.{count_of, Blank, Noted, OutlineOf};

use super::mark::{MARKS, Mark};
use arrayvec::ArrayVec;
use names::name::Name;
use names::part::Part;
use positions::{PLACES, Positions};

/// The byte that each part begins at, and the places of the words and of the marks.
#[derive(Drop)]
pub(crate) struct Outline {
    pub(crate) starts: ArrayVec<usize, PLACES>,
    pub(crate) words: Positions,
    pub(crate) marks: [Positions; MARKS],
}

// The mark that a part is; a word is none. Not a `TryFrom`: an error would say no more than none does.
fn mark_of(part: Part<'_>) -> Option<Mark>
    ensures { MarkOf (part_of part.entry) result }
{
    match part {
        Part::Word(_) => None,
        Part::Dot => Some(Mark::Dot),
        Part::At => Some(Mark::At),
        Part::Plus => Some(Mark::Plus),
    }
}

impl Outline {
    // The outline of no part.
    fn blank() -> Outline
        ensures { Blank result }
    {
        let nowhere = Positions::empty();
        Outline {
            starts: ArrayVec::new(),
            words: nowhere,
            marks: [nowhere; MARKS],
        }
    }

    // Notes one more part, which begins at this byte.
    fn note(&mut self, start: usize, part: Part<'_>)
        requires { count_of self.old < 64 }
        ensures { Noted self.old start part.entry self.new }
    {
        let place = self.starts.len();
        self.starts.push(start);
        match mark_of(part) {
            None => self.words = self.words.insert(place),
            Some(mark) => self.marks[mark as usize] = self.marks[mark as usize].insert(place),
        }
    }

    /// The outline of a name.
    pub(crate) fn of(name: &Name) -> Outline
        ensures { OutlineOf (shown name.now.text) result }
    {
        let mut outline = Outline::blank();
        for (start, part) in name.parts() {
            outline.note(start, part);
        }
        outline
    }
}
