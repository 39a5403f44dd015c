//! Places.
ghost use Rattle.std.specs.Prelude.{◌≡◌, [], None, codes};
ghost use Rattle.texts.specs.Shown.{shown};

use faults::lawful::LawfulText;
use lists::list::AccessList;
use names::path::{MAX_PATH_BYTES, Path};
use registers::record::Record;
use texts::Text;

/// A place: a path with its own list and, where one was given, the list for what lies below.
#[derive(Clone, Copy, Debug, PartialEq, Eq)]
pub struct Place {
    pub path: Path,
    pub own: AccessList,
    pub second: Option<AccessList>,
}

impl Place {
    ghost use Rattle.station.specs.Stations.{lists_of};
    ghost use Rattle.histories.specs.Places.{list_below};

    /// A row to lend to a station: its content does not matter.
    pub fn spare() -> Place
        ensures { (shown result.path.text ≡ codes "/-") × (shown result.own.text ≡ []) × (result.second ≡ None) }
    {
        Place {
            path: Path::new(b"/-").unwrap(),
            own: AccessList::new(b"").unwrap(),
            second: None,
        }
    }

    /// The list for what lies below the place: the second, or its own where the second is absent.
    pub fn list_below(&self) -> &AccessList
        ensures { shown result.now.text ≡ list_below (lists_of self.now) }
    {
        self.second.as_ref().unwrap_or(&self.own)
    }
}

/// Places lie in a register by their paths.
impl Record for Place {
    type Key = Text<MAX_PATH_BYTES>;

    ghost keyed = { λ place. shown place.path.text };

    fn key(&self) -> Text<MAX_PATH_BYTES>
        ensures { result ≡ self.now.path.text }
    {
        *self.path.as_text()
    }
}
