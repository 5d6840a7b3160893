use super::is_text;
use names::texts::{cut, is_blank, trim, trim_end, trim_start};
use names::{Entity, NameFault, Role, RoleName};
use std::alloc::{AllocError, Global};
use std::cmp::Ordering;

/// Whether the text is an entity's name where the number is 0, and kept whole, and else has the fault of this number.
fn reads_entity(text: &[u8], number: u64) -> bool {
    match Entity::read(text) {
        Ok(entity) => number == 0 && entity.bytes() == text,
        Err(fault) => fault.number() == number,
    }
}

/// The same of the name of a role.
fn reads_role_name(text: &[u8], number: u64) -> bool {
    match RoleName::read(text) {
        Ok(name) => number == 0 && name.bytes() == text,
        Err(fault) => fault.number() == number,
    }
}

/// Whether the text is a role of this owner and this name.
fn reads_role(text: &[u8], owner: &[u8], name: &[u8]) -> bool {
    match Role::read(text) {
        Ok(role) => role.owner.bytes() == owner && role.name.bytes() == name,
        Err(_) => false,
    }
}

/// Whether the text is no role, by the fault of this number.
fn is_no_role(text: &[u8], number: u64) -> bool {
    match Role::read(text) {
        Ok(_) => false,
        Err(fault) => fault.number() == number,
    }
}

/// Whether the roles are ordered so.
fn are_ordered(role: &[u8], other: &[u8], order: Ordering) -> bool {
    match (Role::read(role), Role::read(other)) {
        (Ok(role), Ok(other)) => role.compare(&other) == order,
        _ => false,
    }
}

/// What is looked at.
enum Line {
    /// A text as a name: 0, or the number of its fault.
    Name(&'static [u8], u64),
    /// A text as a role: its owner and its name.
    Role(&'static [u8], &'static [u8], &'static [u8]),
    /// A text that is no role, and the number of its fault.
    NoRole(&'static [u8], u64),
    /// Two roles, and their order.
    Order(&'static [u8], &'static [u8], Ordering),
    /// A fault, its number and its text.
    Fault(NameFault, u64, &'static str),
    /// A text, and what stands in it before the first dot and after it.
    Cut(&'static [u8], &'static [u8], Option<&'static [u8]>),
    /// A text, and what is left of it without the spaces in front, without those at the end, and without both.
    Trimmed(&'static [u8], &'static [u8], &'static [u8], &'static [u8]),
    /// Whether a text has nothing but spaces.
    Blank(&'static [u8], bool),
}

use Line::{Blank, Cut, Fault, Name, NoRole, Order, Trimmed};

fn is_so(alloc: Global, line: &Line) -> Result<bool, AllocError> {
    match line {
        Name(text, number) => Ok(reads_entity(text, *number) && reads_role_name(text, *number)),
        Line::Role(text, owner, name) => Ok(reads_role(text, owner, name)),
        NoRole(text, number) => Ok(is_no_role(text, *number)),
        Order(role, other, order) => Ok(are_ordered(role, other, *order)),
        Fault(fault, number, text) => {
            Ok(fault.number() == *number && is_text(alloc, fault, text)?)
        }
        Cut(text, before, after) => Ok(cut(text, b'.') == (*before, *after)),
        Trimmed(text, start, end, both) => {
            Ok(trim_start(text) == *start && trim_end(text) == *end && trim(text) == *both)
        }
        Blank(text, blank) => Ok(is_blank(text) == *blank),
    }
}

static LINES: [Line; 35] = [
    // Names; the last two have 64 bytes and 65.
    Name(b"A", 0),
    Name(b"z9_-", 0),
    Name(b"Bob", 0),
    Name(b"", 11),
    Name(b"9", 12),
    Name(b"_a", 12),
    Name(b"a b", 13),
    Name(b"a.b", 13),
    Name(b"a\xc3\xa9", 13),
    Name(b" a", 12),
    Name(
        b"xxxxxxxxxxxxxxxxxxxxxxxxxxxxxxxxxxxxxxxxxxxxxxxxxxxxxxxxxxxxxxxx",
        0,
    ),
    Name(
        b"xxxxxxxxxxxxxxxxxxxxxxxxxxxxxxxxxxxxxxxxxxxxxxxxxxxxxxxxxxxxxxxxx",
        14,
    ),
    // Roles, and their order.
    Line::Role(b"A.r", b"A", b"r"),
    NoRole(b"", 15),
    NoRole(b"A", 15),
    NoRole(b"A.r.s", 15),
    NoRole(b"..", 15),
    NoRole(b".9", 11),
    NoRole(b"9.", 12),
    NoRole(b"A.", 11),
    Order(b"A.z", b"B.a", Ordering::Less),
    Order(b"A.r", b"A.r-", Ordering::Less),
    Order(b"B-.r", b"B.s", Ordering::Greater),
    // Faults.
    Fault(NameFault::Empty, 11, "empty name"),
    Fault(NameFault::Start, 12, "name start"),
    Fault(NameFault::Byte, 13, "name byte"),
    Fault(NameFault::Long, 14, "name too long"),
    Fault(NameFault::NotRole, 15, "not a role"),
    // Texts.
    Cut(b"A.r.s", b"A", Some(b"r.s")),
    Cut(b"A", b"A", None),
    Trimmed(b"  a b\t ", b"a b\t ", b"  a b\t", b"a b\t"),
    Trimmed(b"   ", b"", b"", b""),
    Blank(b"", true),
    Blank(b"  ", true),
    Blank(b" \t", false),
];

static IN_ORDER: [&[u8]; 6] = [b"A", b"A-", b"B", b"Ba", b"a", b"b"];

/// Whether the names are ordered so, as entities.
fn entities_are_ordered(name: &[u8], other: &[u8], order: Ordering) -> bool {
    match (Entity::read(name), Entity::read(other)) {
        (Ok(name), Ok(other)) => name.compare(&other) == order,
        _ => false,
    }
}

/// Whether the names are ordered so, as role names.
fn role_names_are_ordered(name: &[u8], other: &[u8], order: Ordering) -> bool {
    match (RoleName::read(name), RoleName::read(other)) {
        (Ok(name), Ok(other)) => name.compare(&other) == order,
        _ => false,
    }
}

/// Whether the names are ordered so, as entities and as role names.
fn names_are_ordered(name: &[u8], other: &[u8], order: Ordering) -> bool {
    entities_are_ordered(name, other, order) && role_names_are_ordered(name, other, order)
}

/// Whether each two of them are in the order of their places.
fn are_in_order() -> bool {
    for (i, name) in IN_ORDER.iter().enumerate() {
        for (j, other) in IN_ORDER.iter().enumerate() {
            if !names_are_ordered(name, other, i.cmp(&j)) {
                return false;
            }
        }
    }
    true
}

#[test]
fn names_roles_faults_texts_and_orders(rt: HostRuntime) -> Result<(), AllocError> {
    for line in &LINES {
        assert!(rt; is_so(rt.alloc(), line)?);
    }
    assert!(rt; are_in_order());
    Ok(())
}
