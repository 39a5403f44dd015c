//! A book of one group, whose text is as long as any may be.
ghost use Rattle.std.specs.Prelude.{◌≡◌, ◌≤◌, length, Some, None, MatchOption};
ghost use Rattle.texts.specs.Shown.{shown};
ghost use Rattle.books.specs.Tables.{text_of};
ghost use Rattle.opening_cases.specs.Sole.{sole, sole_lawful};

use books::book::Book;
use books::not_copied::NotCopied;
use faults::lawful::LawfulText;
use lists::group_name::GroupName;

/// The most bytes that a group's text may have in a book.
pub const LONGEST_TEXT: usize = 4095;

/// Holds one group. A table book has no room for its text, and no list that reaches it opens.
#[derive(Drop)]
pub struct LongBook<'a> {
    name: GroupName,
    text: &'a [u8],
    ghost short: { length text.now ≤ 4095 },
}

impl<'a> LongBook<'a> {
    /// The book of this group.
    pub fn new(name: GroupName, text: &'a [u8; LONGEST_TEXT]) -> LongBook<'a>
        ensures { ⟦<LongBook<'a> as Book>⟧.table result ≡ sole (shown name.text) text.now }
    {
        LongBook { name, text }
    }

    // The text, if this is the name of its group.
    fn find(&self, name: &[u8]) -> Option<&[u8]>
        ensures { MatchOption result (text_of (sole (shown self.now.name.text) self.now.text.now) name.now ≡ None) (λ text. text_of (sole (shown self.now.name.text) self.now.text.now) name.now ≡ Some text.now) }
    {
        if self.name.as_bytes() == name {
            Some(self.text)
        } else {
            None
        }
    }
}

impl<'a> Book for LongBook<'a> {
    ghost table = { λ b. sole (shown b.name.text) b.text.now };

    ghost lawful = { λ b. sole_lawful (shown b.name.text) b.text.now b.name.lawful b.short };

    fn text_len(&self, name: &[u8]) -> Option<usize> {
        self.find(name).map(|text| text.len())
    }

    fn copy_text(&self, name: &[u8], buffer: &mut [u8]) -> Result<usize, NotCopied> {
        let text = self.find(name).ok_or(NotCopied::NameLacking)?;
        if text.len() > buffer.len() {
            return Err(NotCopied::BufferTooShort);
        }
        buffer[..text.len()].copy_from_slice(text);
        Ok(text.len())
    }
}
