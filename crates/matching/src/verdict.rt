//! Verdicts.
ghost use Rattle.std.specs.Prelude.{◌≡◌, ◌≢◌, MatchOption};
ghost use Rattle.matching.specs.Verdicts.{is_grant, verdict_number};

/// Whether a name is granted what it asks for.
#[derive(Clone, Copy, Debug, PartialEq, Eq)]
pub enum Verdict {
    Deny,
    Grant,
}

impl Verdict {
    /// Grant if what is asked for is granted, else deny.
    pub fn on(granted: bool) -> Verdict
        ensures { is_grant result ≡ granted }
    {
        if granted {
            Verdict::Grant
        } else {
            Verdict::Deny
        }
    }

    /// Whether it is a grant.
    pub fn is_grant(self) -> bool
        ensures { result ≡ is_grant self }
    {
        self == Verdict::Grant
    }

    /// The number that the archive writes for the verdict.
    pub fn number(self) -> u32
        ensures { result ≡ verdict_number self }
    {
        match self {
            Verdict::Deny => 0,
            Verdict::Grant => 1,
        }
    }

    /// The verdict that the archive writes the number for, or none.
    pub fn of(number: u32) -> Option<Verdict>
        ensures { MatchOption result ((v : Verdict) → verdict_number v ≢ number) (λ v. verdict_number v ≡ number) }
    {
        match number {
            0 => Some(Verdict::Deny),
            1 => Some(Verdict::Grant),
            _ => None,
        }
    }
}
