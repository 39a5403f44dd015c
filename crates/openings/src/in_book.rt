//! The groups of a book.
ghost use Rattle.std.specs.Prelude.{◌≡◌, is_some};
ghost use Rattle.books.specs.Tables.{text_of};

use super::membership::Membership;
use books::book::Book;

/// There are the groups that a book has.
#[derive(Clone, Copy)]
pub struct InBook<'b, B: Book> {
    pub(crate) book: &'b B,
}

impl<'b, B: Book> InBook<'b, B> {
    /// The groups of this book.
    pub fn of(book: &'b B) -> InBook<'b, B>
        ensures { result.book.now ≡ book.now }
    {
        InBook { book }
    }
}

impl<'b, B: Book> Membership for InBook<'b, B> {
    ghost has = { λ groups name. is_some (text_of (B.Book.table groups.book.now) name) };

    fn has(&self, name: &[u8]) -> bool
        ensures has { result ≡ is_some (text_of (B.Book.table self.now.book.now) name.now) }
    {
        self.book.text_len(name).is_some()
    }
}
