//! The text of a name that a spawn makes.
ghost use Rattle.std.specs.Prelude.{◌≡◌, ◌+◌, ◌≤◌, ◌∷◌, ◌++◌};
ghost use Rattle.arrayvec.specs.ArrayVec.{array_vec_len};
ghost use Rattle.texts.specs.Shown.{shown};
ghost use Rattle.histories.specs.Processes.{spawned, spawned_in_role};

use arrayvec::ArrayVec;
use faults::lawful::LawfulText;
use names::name::{MAX_NAME_BYTES, MAX_PARTIAL_BYTES, Name, PartialName};

// The most bytes that a spawn joins: a name, a role and a program, and two marks.
const MAX_MADE_BYTES: usize = MAX_NAME_BYTES + 2 * (1 + MAX_PARTIAL_BYTES);

/// A text that may be longer than a name is.
#[derive(Drop)]
pub(crate) struct MadeName {
    bytes: ArrayVec<u8, MAX_MADE_BYTES>,
}

impl MadeName {
    /// The name of a process that the parent starts.
    pub(crate) fn spawned(parent: &Name, program: &PartialName) -> MadeName
        ensures { result.bytes.items ≡ spawned (shown parent.now.text) (shown program.now.text) }
    {
        let mut name = MadeName::of(parent);
        name.add(b'+', program);
        name
    }

    /// The name of a process that the parent starts in a role.
    pub(crate) fn spawned_in_role(
        parent: &Name,
        role: &PartialName,
        program: &PartialName,
    ) -> MadeName
        ensures { result.bytes.items ≡ spawned_in_role (shown parent.now.text) (shown role.now.text) (shown program.now.text) }
    {
        let mut made = MadeName::of(parent);
        made.add(b'@', role);
        made.add(b'+', program);
        made
    }

    /// The full name that a list is asked for: the requester's name, and the permission as one role more.
    pub(crate) fn full_name(name: &Name, permission: &PartialName) -> MadeName
        ensures { result.bytes.items ≡ shown name.now.text ++ 64 ∷ shown permission.now.text }
    {
        let mut full = MadeName::of(name);
        full.add(b'@', permission);
        full
    }

    /// The bytes of the text.
    pub(crate) fn as_bytes(&self) -> &[u8]
        ensures { result.now ≡ self.now.bytes.items }
    {
        &self.bytes
    }

    // The text of a name.
    fn of(name: &Name) -> MadeName
        ensures text { result.bytes.items ≡ shown name.now.text }
        ensures len { array_vec_len result.bytes ≤ 255 }
    {
        let mut bytes = ArrayVec::new();
        let _fits = bytes.try_extend_from_slice(name.as_bytes());
        MadeName { bytes }
    }

    // Adds a mark and a partial name.
    fn add(&mut self, mark: u8, part: &PartialName)
        requires { array_vec_len self.old.bytes ≤ 320 }
        ensures text { self.new.bytes.items ≡ self.old.bytes.items ++ mark ∷ shown part.now.text }
        ensures len { array_vec_len self.new.bytes ≤ array_vec_len self.old.bytes + 65 }
    {
        self.bytes.push(mark);
        let _fits = self.bytes.try_extend_from_slice(part.as_bytes());
    }
}
