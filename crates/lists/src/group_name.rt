//! Group names that are given alone.
ghost use Rattle.std.specs.Prelude.{◌≡◌};
ghost use Rattle.faults.specs.Lawful.{Checked};
ghost use Rattle.texts.specs.Shown.{shown};
ghost use Rattle.lists.specs.Bytes.{IsGroupName};
ghost use Rattle.lists.specs.GroupNames.{GroupNameFault};

use super::class::{is_group_byte, run_end};
use super::reader::MAX_GROUP_NAME_BYTES;
use faults::fault::Fault;
use faults::kind::Kind;
use faults::lawful::LawfulText;
use names::limit::copy_within;
use texts::Text;

/// A lawful group name.
#[derive(Clone, Copy, Debug, PartialEq, Eq)]
pub struct GroupName {
    text: Text<MAX_GROUP_NAME_BYTES>,
    ghost lawful: { ∥ IsGroupName (shown text) ∥₁ },
}

impl LawfulText for GroupName {
    ghost shows = { λ name. shown name.text };

    ghost lawful = { IsGroupName };

    ghost faulty = { GroupNameFault };

    fn new(text: &[u8]) -> Result<GroupName, Fault>
        ensures { Checked (λ name. shown name.text) IsGroupName GroupNameFault text.now result }
    {
        let held = copy_within::<MAX_GROUP_NAME_BYTES>(text, Kind::GroupNameUnlawful)?;
        let end = run_end(text, 0, is_group_byte);
        if end < text.len() || end == 0 {
            return Err(Fault::at(Kind::GroupNameUnlawful, end));
        }
        Ok(GroupName { text: held })
    }

    fn as_bytes(&self) -> &[u8]
        ensures { result.now ≡ shown self.now.text }
    {
        self.text.as_bytes()
    }
}

impl GroupName {
    // Not `AsRef`: that name would not say which view of the name it is.
    /// The group name as a text.
    pub fn as_text(&self) -> &Text<MAX_GROUP_NAME_BYTES>
        ensures { result.now ≡ self.now.text }
    {
        &self.text
    }
}
