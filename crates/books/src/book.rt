//! What a book is.
ghost use Rattle.std.specs.Prelude.{◌≡◌, ℕ, List, length};
ghost use Rattle.std.specs.Option.{option_map};
ghost use Rattle.books.specs.Tables.{Table, text_of, LawfulTable};
ghost use Rattle.books.specs.Copies.{copied};

use super::not_copied::NotCopied;

/// A book of groups. Its meaning is a finite table from lawful group names to texts; its two answers follow from the
/// table, and neither changes it.
pub trait Book {
    ghost table: { Self → Table };

    ghost lawful: { (book : Self) → LawfulTable (table book) };

    /// The length of a name's text, or none where the table lacks the name.
    fn text_len(&self, name: &[u8]) -> Option<usize>
        ensures { result ≡ option_map length (text_of (table self.now) name.now) };

    // A lent buffer: the library takes no memory of its own.
    /// Copies a name's text to the front of the buffer, leaves the rest, and answers the text's length; or says why it
    /// wrote nothing.
    fn copy_text(&self, name: &[u8], buffer: &mut [u8]) -> Result<usize, NotCopied>
        ensures answer { result ≡ (copied (text_of (table self.now) name.now) buffer.old).0 }
        ensures buffer { buffer.new ≡ (copied (text_of (table self.now) name.now) buffer.old).1 };
}

/// A book that is lent is a book.
impl<B: Book> Book for &B {
    ghost table = { λ b. B.Book.table b.now };

    ghost lawful = { λ b. B.Book.lawful b.now };

    fn text_len(&self, name: &[u8]) -> Option<usize>
        ensures { result ≡ option_map length (text_of (B.Book.table self.now.now) name.now) }
    {
        (**self).text_len(name)
    }

    fn copy_text(&self, name: &[u8], buffer: &mut [u8]) -> Result<usize, NotCopied>
        ensures answer { result ≡ (copied (text_of (B.Book.table self.now.now) name.now) buffer.old).0 }
        ensures buffer { buffer.new ≡ (copied (text_of (B.Book.table self.now.now) name.now) buffer.old).1 }
    {
        (**self).copy_text(name, buffer)
    }
}
