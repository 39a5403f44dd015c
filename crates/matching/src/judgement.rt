//! Judging a name by a list, through a book.
ghost use Rattle.books.specs.Tables.{Table, text_of};
ghost use Rattle.texts.specs.Shown.{shown};
ghost use Rattle.openings.specs.Opening.{Alike};
ghost use Rattle.matching.specs.Judgements.{Judged};

use super::derive::derives;
use super::verdict::Verdict;
use books::book::Book;
use faults::fault::Fault;
use lists::list::AccessList;
use names::name::Name;
use names::rule::WordRule;
use openings::open::open;

/// Judges a name by a list, through a book, where words are compared by the rule: the verdict is grant exactly if the
/// list derives the name. Faults: those of opening the list.
pub fn judge<B: Book, R: WordRule>(
    list: &AccessList,
    name: &Name,
    book: &B,
    rule: &R,
) -> Result<Verdict, Fault>
    ensures answer { Judged (R.same rule.now) (B.Book.table book.now) (shown list.now.text) (shown name.now.text) result }
    ensures alike { (table : Table) → Alike (text_of (B.Book.table book.now)) (text_of table) (shown list.now.text) → Judged (R.same rule.now) table (shown list.now.text) (shown name.now.text) result }
{
    match &open(list, book) {
        Ok(opened) => Ok(Verdict::on(derives(opened, name, rule))),
        Err(fault) => Err(*fault),
    }
}
