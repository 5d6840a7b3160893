//! Why the text of a line or a command is refused, and the texts of the refusals.
ghost use Rattle.std.specs.Prelude.{◌≡◌, ◌≤◌, length, option_map, IfSome};
ghost use Rattle.service.specs.Refusal.{refusal_number, refusal_of};

use credential_text::CredFault;
use names::NameFault;

/// Why the text of a line or a command is refused.
#[derive(Clone, Copy)]
pub(crate) enum Refusal {
    /// An argument is no name, or no role.
    Name(NameFault),
    /// An argument spells no credential.
    Credential(CredFault),
    /// A session's line comes before a good hello.
    NoHello,
    /// What stands before the colon is no tenant's name, or a hello has no tenant's name and word.
    BadHello,
    /// There is no such command, or its arguments are of another kind or number.
    Command,
    /// The line has more bytes than a line may have.
    LineLong,
    /// The line has a byte that is neither a space nor visible.
    NotAscii,
    /// There is no memory to read the command.
    Memory,
}

impl Refusal {
    /// The number that the reply shows.
    pub(crate) fn number(self) -> u64
        ensures { result ≡ refusal_number self }
    {
        match self {
            Refusal::Name(fault) => fault.number(),
            Refusal::Credential(fault) => fault.number(),
            Refusal::NoHello => 61,
            Refusal::BadHello => 62,
            Refusal::Command => 64,
            Refusal::LineLong => 65,
            Refusal::NotAscii => 66,
            Refusal::Memory => 90,
        }
    }
}

impl From<NameFault> for Refusal {
    ghost use Rattle.std.specs.Prelude.{◌≡◌};
    ghost use Rattle.service.specs.declared.refusals.Refusal.TheVariants.{Name};

    ghost from_gives = { λ fault refusal. refusal ≡ Name fault };

    fn from(fault: NameFault) -> Refusal {
        Refusal::Name(fault)
    }
}

/// The text that a reply shows after the number of a refusal. A number that stands for no reply has none.
pub fn fault_text(number: u64) -> Option<&'static str>
    ensures text { option_map (λ s. s.now) result ≡ refusal_of number }
    ensures short { IfSome result (λ s. length s.now ≤ 19) }
{
    let text = match number {
        11 => "empty name",
        12 => "name start",
        13 => "name byte",
        14 => "name too long",
        15 => "not a role",
        21 => "no arrow",
        22 => "head",
        23 => "empty body",
        24 => "too many dots",
        25 => "link base",
        26 => "parts",
        27 => "credential too long",
        31 => "not issuer",
        32 => "already held",
        33 => "not held",
        34 => "already granted",
        35 => "not granted",
        36 => "grant self",
        41 => "creds limit",
        42 => "grants limit",
        43 => "searches limit",
        44 => "changes limit",
        45 => "opens limit",
        51 => "no such search",
        52 => "not done",
        53 => "no proof",
        61 => "no hello",
        62 => "bad hello",
        63 => "roster",
        64 => "command",
        65 => "line too long",
        66 => "not ascii",
        90 => "memory",
        91 => "rewound",
        _ => return None,
    };
    Some(text)
}

#[cfg(test)]
mod tests;
