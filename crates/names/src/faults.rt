ghost use Rattle.std.specs.Prelude.{◌≡◌};

use thiserror::Error;

/// Why a text is no name, or no role.
#[derive(Clone, Copy, Debug, PartialEq, Eq, Error)]
pub enum NameFault {
    /// There is nothing there.
    #[error("empty name")]
    Empty,
    /// The first byte is no letter.
    #[error("name start")]
    Start,
    /// A later byte is no letter, no digit, no `_` and no `-`.
    #[error("name byte")]
    Byte,
    /// The name has more than 64 bytes.
    #[error("name too long")]
    Long,
    /// The text of a role hasn't exactly one dot.
    #[error("not a role")]
    NotRole,
}

impl NameFault {
    ghost use Rattle.names.specs.Fault.{name_fault_number};

    /// The number under which a reply names this fault: 11 to 15.
    pub fn number(self) -> u64
        ensures { result ≡ name_fault_number self }
    {
        match self {
            NameFault::Empty => 11,
            NameFault::Start => 12,
            NameFault::Byte => 13,
            NameFault::Long => 14,
            NameFault::NotRole => 15,
        }
    }
}
