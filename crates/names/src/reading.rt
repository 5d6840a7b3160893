ghost use Rattle.std.specs.Prelude.{◌≡◌, ◌≤◌, ◌-◌, ◌++◌, length, replicate};
ghost use Rattle.std.specs.List.{list_all};
ghost use Rattle.names.specs.Name.{is_letter, is_name_byte};
ghost use Rattle.names.specs.Fault.{name_fault};

use crate::faults::NameFault;

fn is_name_byte(byte: &u8) -> bool
    ensures { result ≡ is_name_byte byte.now }
{
    byte.is_ascii_alphanumeric() || *byte == b'_' || *byte == b'-'
}

fn are_name_bytes(text: &[u8]) -> bool
    ensures { result ≡ list_all is_name_byte text.now }
{
    text.iter().all(is_name_byte)
}

/// The first fault of the text as a name, if it has one.
pub fn fault_of(text: &[u8]) -> Option<NameFault>
    ensures { result ≡ name_fault text.now }
{
    let Some((first, others)) = text.split_first() else {
        return Some(NameFault::Empty);
    };
    if !first.is_ascii_alphabetic() {
        return Some(NameFault::Start);
    }
    if !are_name_bytes(others) {
        return Some(NameFault::Byte);
    }
    if text.len() > 64 {
        return Some(NameFault::Long);
    }
    None
}

/// The text, with zero cells behind it.
pub fn padded(text: &[u8]) -> [u8; 64]
    requires { length text.now ≤ 64 }
    ensures { result ≡ text.now ++ replicate (64 - length text.now) 0 }
{
    let mut cells = [0; 64];
    for (i, byte) in text.iter().enumerate() {
        cells[i] = *byte;
    }
    cells
}
