//! The calls of a script.
ghost use Rattle.std.specs.Prelude.{[], ◌∷◌};

use super::number::positive;
use std::num::NonZeroU32;

/// A call with its fields.
#[derive(Clone, Copy, Debug, PartialEq, Eq)]
pub enum Call<'a> {
    Name(&'a [u8]),
    Path(&'a [u8]),
    List(&'a [u8]),
    /// A group name and the group's text.
    Group(&'a [u8], &'a [u8]),
    Ungroup(&'a [u8]),
    Open(&'a [u8]),
    /// A name and a list.
    Match(&'a [u8], &'a [u8]),
    /// A program.
    Start(&'a [u8]),
    /// A parent and a program.
    Spawn(NonZeroU32, &'a [u8]),
    /// A parent, a role and a program.
    Role(NonZeroU32, &'a [u8], &'a [u8]),
    /// A parent and a program.
    Own(NonZeroU32, &'a [u8]),
    /// A process.
    End(NonZeroU32),
    /// A path and its own list.
    Post(&'a [u8], &'a [u8]),
    /// A path, its own list and a second list.
    PostBoth(&'a [u8], &'a [u8], &'a [u8]),
    Unpost(&'a [u8]),
    Force(&'a [u8]),
}

impl<'a> Call<'a> {
    ghost use Rattle.scripts.specs.Lines.{Spells};
    ghost use Rattle.scripts.specs.Understood.{Told};

    // The call of that word with one field, or none where there is none.
    pub(crate) fn of_one(word: &[u8], field: &'a [u8]) -> Option<Call<'a>>
        ensures { Told (Spells (word.now ∷ field.entry.now ∷ [])) result }
    {
        match word {
            b"name" => Some(Call::Name(field)),
            b"path" => Some(Call::Path(field)),
            b"list" => Some(Call::List(field)),
            b"ungroup" => Some(Call::Ungroup(field)),
            b"open" => Some(Call::Open(field)),
            b"start" => Some(Call::Start(field)),
            b"end" => Some(Call::End(positive(field)?)),
            b"unpost" => Some(Call::Unpost(field)),
            b"force" => Some(Call::Force(field)),
            _ => None,
        }
    }

    // The same with two fields.
    pub(crate) fn of_two(word: &[u8], first: &'a [u8], second: &'a [u8]) -> Option<Call<'a>>
        ensures { Told (Spells (word.now ∷ first.entry.now ∷ second.entry.now ∷ [])) result }
    {
        match word {
            b"group" => Some(Call::Group(first, second)),
            b"match" => Some(Call::Match(first, second)),
            b"spawn" => Some(Call::Spawn(positive(first)?, second)),
            b"own" => Some(Call::Own(positive(first)?, second)),
            b"post" => Some(Call::Post(first, second)),
            _ => None,
        }
    }

    // The same with three fields.
    pub(crate) fn of_three(
        word: &[u8],
        first: &'a [u8],
        second: &'a [u8],
        third: &'a [u8],
    ) -> Option<Call<'a>>
        ensures { Told (Spells (word.now ∷ first.entry.now ∷ second.entry.now ∷ third.entry.now ∷ [])) result }
    {
        match word {
            b"role" => Some(Call::Role(positive(first)?, second, third)),
            b"post" => Some(Call::PostBoth(first, second, third)),
            _ => None,
        }
    }
}
