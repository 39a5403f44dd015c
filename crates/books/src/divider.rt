//! A book made of two.
ghost use Rattle.std.specs.Prelude.{◌≡◌, length};
ghost use Rattle.std.specs.Option.{option_map};
ghost use Rattle.books.specs.Copies.{copied};
ghost use Rattle.books.specs.Tables.{begins, divided, text_of};
ghost use Rattle.books.specs.Divided.{divided_lawful};

use super::book::Book;
use super::not_copied::NotCopied;

/// Holds two books of any kind and one byte. Names that begin with the byte go to the first, all others to the second.
#[derive(Drop)]
pub struct Divider<A: Book, B: Book> {
    first: A,
    second: B,
    byte: u8,
}

impl<A: Book, B: Book> Divider<A, B> {
    /// The two books, parted by the byte.
    pub fn new(first: A, second: B, byte: u8) -> Divider<A, B>
        ensures fields { (result.first ≡ first) × (result.second ≡ second) × (result.byte ≡ byte) }
        ensures table { ⟦<Divider<A, B> as Book>⟧.table result ≡ divided byte (A.Book.table first) (B.Book.table second) }
    {
        Divider {
            first,
            second,
            byte,
        }
    }

    /// The two books, as they were put in.
    pub fn into_books(self) -> (A, B)
        ensures { (result.0 ≡ self.first) × (result.1 ≡ self.second) }
    {
        (self.first, self.second)
    }

    // Whether a name goes to the first book.
    fn is_first(&self, name: &[u8]) -> bool
        ensures { result ≡ begins self.now.byte name.now }
    {
        name.first() == Some(&self.byte)
    }
}

impl<A: Book, B: Book> Book for Divider<A, B> {
    ghost table = { λ d. divided d.byte (A.Book.table d.first) (B.Book.table d.second) };

    ghost lawful = { λ d. divided_lawful d.byte (A.Book.table d.first) (B.Book.table d.second) (A.Book.lawful d.first) (B.Book.lawful d.second) };

    fn text_len(&self, name: &[u8]) -> Option<usize>
        ensures { result ≡ option_map length (text_of (divided self.now.byte (A.Book.table self.now.first) (B.Book.table self.now.second)) name.now) }
    {
        if self.is_first(name) {
            self.first.text_len(name)
        } else {
            self.second.text_len(name)
        }
    }

    fn copy_text(&self, name: &[u8], buffer: &mut [u8]) -> Result<usize, NotCopied>
        ensures answer { result ≡ (copied (text_of (divided self.now.byte (A.Book.table self.now.first) (B.Book.table self.now.second)) name.now) buffer.old).0 }
        ensures buffer { buffer.new ≡ (copied (text_of (divided self.now.byte (A.Book.table self.now.first) (B.Book.table self.now.second)) name.now) buffer.old).1 }
    {
        if self.is_first(name) {
            self.first.copy_text(name, buffer)
        } else {
            self.second.copy_text(name, buffer)
        }
    }
}
