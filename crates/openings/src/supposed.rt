//! Groups that are supposed to be there.
ghost use Rattle.std.specs.Prelude.{◌≡◌, true};

use super::membership::Membership;

/// There is every group: for an opening whose user learns later which groups there are.
#[derive(Clone, Copy)]
pub struct Supposed;

impl Membership for Supposed {
    ghost has = { λ groups name. true };

    fn has(&self, name: &[u8]) -> bool
        ensures has { result ≡ true }
    {
        true
    }
}
