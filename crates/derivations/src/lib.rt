//! What an access list derives, and worked cases of it.
#![tactic(auto)]

ghost use Rattle.std.specs.Prelude.{◌≡◌, length};
ghost use Rattle.std.specs.List.{AllByRecursion};
ghost use Rattle.derivations.specs.Cases.{Holds, cases};

/// How many worked cases there are. Each of them holds.
pub fn case_count() -> usize
    ensures count { result ≡ length cases }
    ensures hold { AllByRecursion Holds cases }
{
    18
}
