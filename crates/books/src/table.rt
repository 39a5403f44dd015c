//! A book of 64 rows.
ghost use Rattle.std.specs.Prelude.{◌≡◌, [], length, Some, None, MatchOption, MatchResult};
ghost use Rattle.std.specs.Option.{option_map};
ghost use Rattle.faults.specs.declared.kind.Kind.TheVariants.{GroupNotInBook};
ghost use Rattle.names.specs.Faults.{fault};
ghost use Rattle.registers.specs.Registers.{rows_in_use, Kept, Same};
ghost use Rattle.texts.specs.Shown.{shown};
ghost use Rattle.books.specs.Tables.{text_of};
ghost use Rattle.books.specs.Copies.{copied};
ghost use Rattle.books.specs.Changes.{Added, Removed, AddFault};
ghost use Rattle.books.specs.Groups.{table_of, groups_lawful};

use super::book::Book;
use super::group::Group;
use super::not_copied::NotCopied;
use faults::fault::Fault;
use faults::kind::Kind;
use faults::lawful::LawfulText;
use lists::group_name::GroupName;
use lists::list::MAX_LIST_BYTES;
use names::limit::copy_within;
use registers::register::Register;
use texts::Text;

/// How many rows a table book has.
pub const TABLE_ROWS: usize = 64;

/// A book whose groups are put in and taken out one by one.
#[derive(Drop)]
pub struct TableBook<'a> {
    pub(crate) groups: Register<'a, Group>,
    ghost rows: { length groups.rows.now ≡ 64 },
}

impl<'a> TableBook<'a> {
    /// An empty book over the rows that it is lent.
    pub fn new(rows: &'a mut [Group; TABLE_ROWS]) -> TableBook<'a>
        ensures none { ⟦<TableBook<'a> as Book>⟧.table result ≡ [] }
        ensures memory { result.groups.rows.now ≡ rows.old }
    {
        TableBook {
            groups: Register::new(rows),
        }
    }

    /// Adds a group, in place of one that has its name. The text may have any content. The table is that of the rows in
    /// use.
    pub fn add(&mut self, name: &[u8], text: &[u8]) -> Result<(), Fault>
        ensures tied { ⟦<TableBook<'a> as Book>⟧.table self.old ≡ table_of (rows_in_use self.old.groups) }
        ensures table { MatchResult result (λ _. Added (⟦<TableBook<'a> as Book>⟧.table self.old) (⟦<TableBook<'a> as Book>⟧.table self.new) name.now text.now) (λ f. AddFault (⟦<TableBook<'a> as Book>⟧.table self.old) name.now text.now f) }
        ensures memory { MatchResult result (λ _. Kept self.old.groups self.new.groups) (λ _. Same self.old.groups self.new.groups) }
        ensures same_rows { self.new.groups.rows.ghost_name ≡ self.old.groups.rows.ghost_name }
    {
        let name = GroupName::new(name)?;
        let text = copy_within::<MAX_LIST_BYTES>(text, Kind::TextTooLong)?;
        self.groups
            .put(Group { name, text })
            .map_err(|_| Fault::at(Kind::NoRowFree, 0))
    }

    /// Removes the group that has the name.
    pub fn remove(&mut self, name: &[u8]) -> Result<(), Fault>
        ensures table { MatchResult result (λ _. Removed (⟦<TableBook<'a> as Book>⟧.table self.old) (⟦<TableBook<'a> as Book>⟧.table self.new) name.now) (λ f. (f ≡ fault GroupNotInBook 0) × (text_of (⟦<TableBook<'a> as Book>⟧.table self.old) name.now ≡ None)) }
        ensures memory { MatchResult result (λ _. Kept self.old.groups self.new.groups) (λ _. Same self.old.groups self.new.groups) }
        ensures same_rows { self.new.groups.rows.ghost_name ≡ self.old.groups.rows.ghost_name }
    {
        let lacking = Fault::at(Kind::GroupNotInBook, 0);
        let key = Text::copy_of(name).ok_or(lacking)?;
        self.groups.remove(&key).ok_or(lacking)?;
        Ok(())
    }

    // The group that has the name.
    fn find(&self, name: &[u8]) -> Option<&Group>
        ensures { MatchOption result (text_of (table_of (rows_in_use self.now.groups)) name.now ≡ None) (λ g. text_of (table_of (rows_in_use self.now.groups)) name.now ≡ Some (shown g.now.text)) }
    {
        let key = Text::copy_of(name)?;
        self.groups.find(&key)
    }
}

impl<'a> Book for TableBook<'a> {
    ghost table = { λ b. table_of (rows_in_use b.groups) };

    ghost lawful = { λ b. groups_lawful (rows_in_use b.groups) };

    fn text_len(&self, name: &[u8]) -> Option<usize>
        ensures { result ≡ option_map length (text_of (table_of (rows_in_use self.now.groups)) name.now) }
    {
        self.find(name).map(|group| group.text.as_bytes().len())
    }

    fn copy_text(&self, name: &[u8], buffer: &mut [u8]) -> Result<usize, NotCopied>
        ensures answer { result ≡ (copied (text_of (table_of (rows_in_use self.now.groups)) name.now) buffer.old).0 }
        ensures buffer { buffer.new ≡ (copied (text_of (table_of (rows_in_use self.now.groups)) name.now) buffer.old).1 }
    {
        let group = self.find(name).ok_or(NotCopied::NameLacking)?;
        let text = group.text.as_bytes();
        if text.len() > buffer.len() {
            return Err(NotCopied::BufferTooShort);
        }
        buffer[..text.len()].copy_from_slice(text);
        Ok(text.len())
    }
}
