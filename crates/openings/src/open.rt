//! Opening a list through a book.
ghost use Rattle.std.specs.Prelude.{◌≡◌, ◌+◌, length, MatchResult};
ghost use Rattle.books.specs.Tables.{text_of};
ghost use Rattle.openings.specs.Opening.{Meaning, Alike};
ghost use Rattle.openings.specs.Opened.{OpenFault};
ghost use Rattle.openings.specs.Views.{name_of, text_in};
ghost use Rattle.openings.specs.OpeningState.{listed, given, Through, Due, AllRead};
ghost use Rattle.openings.specs.Answers.{Answered};

use super::in_book::InBook;
use super::known::KnownGroups;
use super::opened::Opened;
use super::opening::Opening;
use books::book::Book;
use faults::fault::Fault;
use faults::lawful::LawfulText;
use lists::group_name::GroupName;
use lists::list::{AccessList, MAX_LIST_BYTES};

// Gives the text that a book has for the group that is due.
fn give_text<B: Book>(opening: &mut Opening, name: &GroupName, book: &B) -> Result<(), Fault>
    ensures answer { Due opening.old (name_of name.now) → Through (text_of (B.Book.table book.now)) opening.old → MatchResult result (λ _. Through (text_of (B.Book.table book.now)) opening.new) (λ f. OpenFault (text_of (B.Book.table book.now)) (listed opening.old) f) }
    ensures change { Due opening.old (name_of name.now) → MatchResult result (λ _. (listed opening.new ≡ listed opening.old) × (length (given opening.new) ≡ length (given opening.old) + 1)) (λ f. opening.new ≡ opening.old) }
{
    let mut buffer = [0u8; MAX_LIST_BYTES];
    let len = book
        .copy_text(name.as_bytes(), &mut buffer)
        .map_err(|_| opening.over_limit())?;
    opening.give(&buffer[..len], &InBook::of(book))
}

// Reads every group that is met through the book.
fn read_groups<B: Book>(opening: &mut Opening, book: &B) -> Result<(), Fault>
    ensures { Through (text_of (B.Book.table book.now)) opening.old → MatchResult result (λ _. AllRead (text_of (B.Book.table book.now)) (listed opening.old) opening.new) (λ f. OpenFault (text_of (B.Book.table book.now)) (listed opening.old) f) }
{
    // No `for`: a text that is given can make more groups due.
    while let Some(&name) = opening.due() {
        give_text(opening, &name, book)?;
    }
    Ok(())
}

/// Opens the list through a book: finds every group that it reaches, reads and checks it; or tells the fault that is
/// due first.
pub fn open<B: Book>(list: &AccessList, book: &B) -> Result<Opened, Fault>
    ensures answer { Answered (text_of (B.Book.table book.now)) (text_in list.now) result }
    ensures alike { (M : Meaning) → Alike (text_of (B.Book.table book.now)) M (text_in list.now) → Answered M (text_in list.now) result }
{
    let names = KnownGroups::named_by(list, &InBook::of(book))?;
    let mut opening = Opening::of(list, &names);
    read_groups(&mut opening, book)?;
    // What `finish` makes, made here in place: an answer that holds an opened list is copied at each step on its way.
    let leads = opening.leads()?;
    Ok(Opened {
        list: opening.list,
        names: opening.names,
        texts: opening.texts,
        leads,
    })
}
