use super::is_text;
use super::of_search::credentials;
use credential_text::{
    CredFault, Credential, Expr, Part, Parts, read_credential, write_credential, write_expr,
};
use names::{Entity, NameFault, Role, RoleName};
use std::alloc::{AllocError, Global};
use std::cmp::Ordering;
use std::collections::HashMap;

/// How a credential is written.
fn written(alloc: Global, credential: &Credential) -> Result<Vec<u8>, AllocError> {
    let mut out = Vec::new(alloc);
    write_credential(credential, &mut out)?;
    Ok(out)
}

/// Whether the credential is written so.
fn is_written(alloc: Global, credential: &Credential, text: &[u8]) -> Result<bool, AllocError> {
    let out = written(alloc, credential)?;
    Ok(out.as_slice() == text)
}

/// Whether the text spells a credential of this canonical spelling.
fn is_spelled(alloc: Global, text: &[u8], canonical: &[u8]) -> Result<bool, CredFault> {
    let credential = read_credential(alloc, text)?;
    Ok(is_written(alloc, &credential, canonical)?)
}

/// The number of the text's fault, or 0.
fn fault_number(alloc: Global, text: &[u8]) -> u64 {
    match read_credential(alloc, text) {
        Ok(_credential) => 0,
        Err(fault) => fault.number(),
    }
}

/// Whether the text spells a credential of this canonical spelling, which spells it too.
fn reads(alloc: Global, text: &[u8], canonical: &[u8]) -> Result<bool, CredFault> {
    Ok(is_spelled(alloc, text, canonical)? && is_spelled(alloc, canonical, canonical)?)
}

/// The text with spaces behind it up to this length.
fn padded(alloc: Global, text: &[u8], length: usize) -> Result<Vec<u8>, AllocError> {
    let mut padded = Vec::from_slice(alloc, text)?;
    padded.resize(length, b' ')?;
    Ok(padded)
}

/// Whether the text so padded has the fault of this number, or spells what the text does where the number is 0.
fn reads_padded(alloc: Global, text: &[u8], length: usize, number: u64) -> Result<bool, CredFault> {
    let padded = padded(alloc, text, length)?;
    if number == 0 {
        is_spelled(alloc, &padded, text)
    } else {
        Ok(fault_number(alloc, &padded) == number)
    }
}

/// Whether there are so many parts, and a clone is equal to them.
fn are_so_many(parts: &Parts, count: usize) -> Result<bool, AllocError> {
    let again = parts.try_clone()?;
    Ok(again == *parts && [parts.as_slice().len(), again.as_slice().len()] == [count, count])
}

/// Whether an intersection of these has so many parts, or there is none where the number is 0.
fn are_held(alloc: Global, parts: &[Part], held: usize) -> Result<bool, AllocError> {
    match Parts::make(alloc, parts)? {
        Some(made) => are_so_many(&made, held),
        None => Ok(held == 0),
    }
}

/// The same of so many times one part, of nine at most.
fn as_many_are_held(alloc: Global, count: usize, held: usize) -> Result<bool, CredFault> {
    let many = [Part::Ent(Entity::read(b"D")?); 9];
    Ok(are_held(alloc, many.get(..count).unwrap_or_default(), held)?)
}

/// The intersection of these parts.
pub(super) fn made_of(alloc: Global, parts: &[Part]) -> Result<Parts, CredFault> {
    match Parts::make(alloc, parts) {
        Ok(Some(made)) => Ok(made),
        Ok(None) => Err(CredFault::Parts),
        Err(_) => Err(CredFault::Memory),
    }
}

/// The linked role over this base.
fn linked(base: &[u8]) -> Result<Part, NameFault> {
    match (Role::read(base), RoleName::read(b"t")) {
        (Ok(base), Ok(name)) => Ok(Part::Link(base, name)),
        _ => Err(NameFault::NotRole),
    }
}

/// The body that is linked over one base, or an intersection of two that are, where these are two.
fn body_over(alloc: Global, base: &[u8], other: &[u8]) -> Result<Expr, CredFault> {
    let first = linked(base)?;
    if other.is_empty() {
        return Ok(first.expr());
    }
    let second = linked(other)?;
    Ok(Expr::Meet(made_of(alloc, &[first, second])?))
}

/// Whether there is a credential of the head `A.r` over these bases, as is told.
fn is_made(alloc: Global, base: &[u8], other: &[u8], told: bool) -> Result<bool, CredFault> {
    let head = Role::read(b"A.r")?;
    let body = body_over(alloc, base, other)?;
    Ok(Credential::make(head, body).is_some() == told)
}

/// What is looked at.
enum Line {
    /// A text, and the canonical spelling of its credential.
    Reads(&'static [u8], &'static [u8]),
    /// A text that spells no credential, and the number of its fault.
    Refused(&'static [u8], u64),
    /// A text that gets spaces behind it up to this length, and the number of its fault then; or 0, where it is a canonical spelling.
    Padded(&'static [u8], usize, u64),
    /// A fault, its number and its text.
    Fault(CredFault, u64, &'static str),
    /// So many parts, and how many an intersection of them has, or 0 where there is none.
    Parts(usize, usize),
    /// The base of a linked role, or those of two, and whether a credential of `A.r` may have them.
    Made(&'static [u8], &'static [u8], bool),
}

use Line::{Fault, Made, Padded, Reads, Refused};

fn is_so(alloc: Global, line: &Line) -> Result<bool, CredFault> {
    match line {
        Reads(text, canonical) => reads(alloc, text, canonical),
        Refused(text, number) => Ok(fault_number(alloc, text) == *number),
        Padded(text, length, number) => reads_padded(alloc, text, *length, *number),
        Fault(fault, number, text) => {
            Ok(fault.number() == *number && is_text(alloc, fault, text)?)
        }
        Line::Parts(count, held) => as_many_are_held(alloc, *count, *held),
        Made(base, other, told) => is_made(alloc, base, other, *told),
    }
}

static LINES: [Line; 72] = [
    // Credentials; the last has a name of 64 bytes.
    Reads(b" A.r<-B.s&C ", b"A.r <- B.s & C"),
    Reads(b"A.r <- A.s.t & D", b"A.r <- A.s.t & D"),
    Reads(b"A.r<-A.s.t", b"A.r <- A.s.t"),
    Reads(b"A.r <- B&B", b"A.r <- B & B"),
    Reads(b"A.r <- C&B.s", b"A.r <- C & B.s"),
    Reads(
        b"A.r<-  A.s.t  &  A.s.u  &  B  ",
        b"A.r <- A.s.t & A.s.u & B",
    ),
    Reads(
        b"A.r<-B&C&D&E&F&G&H&I",
        b"A.r <- B & C & D & E & F & G & H & I",
    ),
    Reads(b"A.r <- A.r.r", b"A.r <- A.r.r"),
    Reads(b" A.r<-B.s ", b"A.r <- B.s"),
    Reads(b"A.r <- D", b"A.r <- D"),
    Reads(b"   A.r   <-   D   ", b"A.r <- D"),
    Reads(b"A-1.r_2<-Bob.friend", b"A-1.r_2 <- Bob.friend"),
    Reads(b"a.r <- A", b"a.r <- A"),
    Reads(b"A.r- <- D-", b"A.r- <- D-"),
    Reads(
        b"A.r <- xxxxxxxxxxxxxxxxxxxxxxxxxxxxxxxxxxxxxxxxxxxxxxxxxxxxxxxxxxxxxxxx",
        b"A.r <- xxxxxxxxxxxxxxxxxxxxxxxxxxxxxxxxxxxxxxxxxxxxxxxxxxxxxxxxxxxxxxxx",
    ),
    // What isn't a credential, by its head or by how it is cut.
    Refused(b"", 21),
    Refused(b"A.r = D", 21),
    Refused(b"A.r < - D", 21),
    Refused(b"A <- D", 22),
    Refused(b"A.r.s <- D", 22),
    Refused(b"<- D", 22),
    Refused(b"A. <- D", 11),
    Refused(b".r <- D", 11),
    Refused(b"9.r <- D", 12),
    Refused(b"A b.r <- D", 13),
    Refused(b"A.r <- D <- E", 13),
    Refused(b"9.r! <-", 12),
    Refused(b"A.r <-", 23),
    Refused(b"A.r <-   ", 23),
    Refused(b"A.r <- A.b.c.d", 24),
    Refused(b"A.r <- 9.b.c.d", 24),
    // Bodies; the last has a name of 65 bytes.
    Refused(b"A.r <- D & A.b.c.d", 24),
    Refused(b"A.r <- B &", 26),
    Refused(b"A.r <- & B", 26),
    Refused(b"A.r <- B & & C", 26),
    Refused(b"A.r <- &", 26),
    Refused(b"A.r <- 9 &", 26),
    Refused(b"A.r <- B&C&D&E&F&G&H&I&J", 26),
    Refused(b"A.r <- 9&C&D&E&F&G&H&I&J", 26),
    Refused(b"A.r <- D & B.s.t", 25),
    Refused(b"A.r <- B.s.t", 25),
    Refused(b"A.r <- B.s.9", 12),
    Refused(b"A.r <- B.s.t & 9", 25),
    Refused(b"A.r <- 9 & B.s.t", 12),
    Refused(b"A.r <- A.s.", 11),
    Refused(b"A.r <- A..t", 11),
    Refused(b"A.r <- A.s.t u", 13),
    Refused(b"A.r <- 9.s", 12),
    Refused(b"A.r <- B . s", 13),
    Refused(
        b"A.r <- xxxxxxxxxxxxxxxxxxxxxxxxxxxxxxxxxxxxxxxxxxxxxxxxxxxxxxxxxxxxxxxxx",
        14,
    ),
    // Lengths, faults, parts and bases.
    Padded(b"A.r <- D", 4096, 0),
    Padded(b"A.r <- D", 4097, 27),
    Padded(b"A.r", 4097, 27),
    Fault(CredFault::NoArrow, 21, "no arrow"),
    Fault(CredFault::Head, 22, "head"),
    Fault(CredFault::BodyEmpty, 23, "empty body"),
    Fault(CredFault::Dots, 24, "too many dots"),
    Fault(CredFault::LinkBase, 25, "link base"),
    Fault(CredFault::Parts, 26, "parts"),
    Fault(CredFault::Long, 27, "credential too long"),
    Fault(CredFault::Name(NameFault::Byte), 13, "name byte"),
    Fault(CredFault::Memory, 90, "memory"),
    Line::Parts(0, 0),
    Line::Parts(1, 0),
    Line::Parts(2, 2),
    Line::Parts(3, 3),
    Line::Parts(8, 8),
    Line::Parts(9, 0),
    Made(b"A.s", b"", true),
    Made(b"B.s", b"", false),
    Made(b"A.s", b"A.s", true),
    Made(b"A.s", b"B.s", false),
];

#[test]
fn texts_faults_parts_and_bases(rt: HostRuntime) -> Result<(), CredFault> {
    for line in &LINES {
        assert!(rt; is_so(rt.alloc(), line)?);
    }
    Ok(())
}

/// The spelling of a credential of eight linked roles, whose names are of the greatest length.
pub(super) fn longest_text(alloc: Global) -> Result<Vec<u8>, CredFault> {
    let longest = [b'x'; 64];
    let head = Role {
        owner: Entity::read(&longest)?,
        name: RoleName::read(&longest)?,
    };
    let parts = made_of(alloc, &[Part::Link(head, head.name); 8])?;
    let credential = Credential::make(head, Expr::Meet(parts)).ok_or(CredFault::LinkBase)?;
    Ok(written(alloc, &credential)?)
}

/// Whether that spelling has so many bytes, and is read again.
fn longest_is_read(alloc: Global, length: usize) -> Result<bool, CredFault> {
    let text = longest_text(alloc)?;
    Ok(text.len() == length && is_spelled(alloc, &text, &text)?)
}

/// Credentials, and what is written once their bodies are appended in turn.
static APPENDED: [(&[u8], &[u8]); 3] = [
    (b"A.r <- B.s", b"in B.s"),
    (b"A.r <- D", b"in B.sD"),
    (b"A.r <- A.s.t & B.s", b"in B.sDA.s.t & B.s"),
];

/// Whether this is what is written once the body is appended.
fn is_appended(expr: &Expr, out: &mut Vec<u8>, all: &[u8]) -> Result<bool, AllocError> {
    write_expr(expr, out)?;
    Ok(out.as_slice() == all)
}

/// Whether this is what is written once the body of the credential that the text spells is appended.
fn body_is_appended(
    alloc: Global,
    text: &[u8],
    out: &mut Vec<u8>,
    all: &[u8],
) -> Result<bool, CredFault> {
    let credential = read_credential(alloc, text)?;
    Ok(is_appended(&credential.body, out, all)?)
}

/// Whether what stood there stays before each body that is appended.
fn all_are_appended(alloc: Global, out: &mut Vec<u8>) -> Result<bool, CredFault> {
    for (text, all) in &APPENDED {
        if !body_is_appended(alloc, text, out, all)? {
            return Ok(false);
        }
    }
    Ok(true)
}

/// The same behind a word.
fn are_appended(alloc: Global) -> Result<bool, CredFault> {
    let mut out = Vec::from_slice(alloc, b"in ")?;
    all_are_appended(alloc, &mut out)
}

static IN_ORDER: [&[u8]; 15] = [
    b"A.r <- D",
    b"A.r <- E",
    b"A.r <- B.s",
    b"A.r <- B.s-",
    b"A.r <- B-.r",
    b"A.r <- A.s.t",
    b"A.r <- A.s.u",
    b"A.r <- A.t.a",
    b"A.r <- B & A.s",
    b"A.r <- B & A.s & A",
    b"A.r <- A.s & A",
    b"A.r <- A.s & A.s",
    b"A.r <- A.s.t & A",
    b"A.r- <- A",
    b"B.a <- A",
];

/// Whether the credentials are ordered so, and their bodies too, where their heads are the same.
fn are_ordered(lower: &Credential, upper: &Credential, order: Ordering) -> bool {
    let bodies = lower.head != upper.head || lower.body.compare(&upper.body) == order;
    bodies && lower.compare(upper) == order
}

/// Whether each two of the credentials are in the order of their places.
fn are_in_order(all: &[Credential]) -> bool {
    for (i, lower) in all.iter().enumerate() {
        for (j, upper) in all.iter().enumerate() {
            if !are_ordered(lower, upper, i.cmp(&j)) {
                return false;
            }
        }
    }
    true
}

/// Credentials whose bodies are of each kind.
static KINDS: [&[u8]; 4] = [
    b"A.r <- D",
    b"A.r <- B.s",
    b"A.r <- A.s.t",
    b"A.r <- D & B.s & A.s.t",
];

/// Whether a clone of the credential is tied with it, and a clone of its body equal to that.
fn is_cloned(credential: &Credential) -> Result<bool, AllocError> {
    let again = credential.try_clone()?;
    let body = credential.body.try_clone()?;
    Ok(again.compare(credential).is_eq() && body == credential.body)
}

/// Keeps the place of each body by it.
fn keep_places(places: &mut HashMap<Expr, usize>, all: &[Credential]) -> Result<(), AllocError> {
    for (place, credential) in all.iter().enumerate() {
        places.insert(credential.body.try_clone()?, place)?;
    }
    Ok(())
}

/// Whether this place is found by the body.
fn is_found(places: &HashMap<Expr, usize>, body: &Expr, place: usize) -> bool {
    match places.get(body) {
        Some(found) => *found == place,
        None => false,
    }
}

/// Whether each body's place is found by it, and clones are equal.
fn are_found(places: &HashMap<Expr, usize>, all: &[Credential]) -> Result<bool, AllocError> {
    for (place, credential) in all.iter().enumerate() {
        if !is_found(places, &credential.body, place) || !is_cloned(credential)? {
            return Ok(false);
        }
    }
    Ok(places.len() == all.len())
}

/// Whether expressions serve as keys.
fn are_keys(places: &mut HashMap<Expr, usize>, all: &[Credential]) -> Result<bool, AllocError> {
    keep_places(places, all)?;
    are_found(places, all)
}

/// Whether credentials are written, ordered, and found in these.
fn are_right(alloc: Global, places: &mut HashMap<Expr, usize>) -> Result<bool, CredFault> {
    let is_written = longest_is_read(alloc, 1706)? && are_appended(alloc)?;
    let is_ordered = are_in_order(&credentials(alloc, &IN_ORDER)?);
    Ok(is_written && is_ordered && are_keys(places, &credentials(alloc, &KINDS)?)?)
}

#[test]
fn credentials_are_written_ordered_cloned_and_found(rt: HostRuntime) -> Result<(), CredFault> {
    let mut places = HashMap::new(rt.alloc());
    assert!(rt; are_right(rt.alloc(), &mut places)?);
    Ok(())
}
