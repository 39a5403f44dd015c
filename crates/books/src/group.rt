//! Groups: the rows of a table book.
ghost use Rattle.std.specs.Prelude.{◌≡◌, [], codes};
ghost use Rattle.texts.specs.Shown.{shown};

use faults::lawful::LawfulText;
use lists::group_name::GroupName;
use lists::list::MAX_LIST_BYTES;
use lists::reader::MAX_GROUP_NAME_BYTES;
use registers::record::Record;
use texts::Text;

/// A group: its name, and its text, of any content.
#[derive(Clone, Copy, Debug, PartialEq, Eq)]
pub struct Group {
    pub name: GroupName,
    pub text: Text<MAX_LIST_BYTES>,
}

/// Groups lie in a register by their names.
impl Record for Group {
    ghost use Rattle.books.specs.Groups.{name_of};

    type Key = Text<MAX_GROUP_NAME_BYTES>;

    ghost keyed = { name_of };

    fn key(&self) -> Text<MAX_GROUP_NAME_BYTES>
        ensures { shown result ≡ name_of self.now }
    {
        *self.name.as_text()
    }
}

impl Group {
    ghost use Rattle.books.specs.Groups.{name_of};

    /// A row to lend to a book: its content does not matter.
    pub fn spare() -> Group
        ensures { (name_of result ≡ codes "-") × (shown result.text ≡ []) }
    {
        Group {
            name: GroupName::new(b"-").unwrap(),
            text: Text::copy_of(b"").unwrap(),
        }
    }
}
