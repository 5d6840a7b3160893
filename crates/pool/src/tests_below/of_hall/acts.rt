//! Events as a table writes them, and what a table wants each to be answered.
use crate::tests_below::are_named;
use credential_text::{CredFault, read_credential};
use hall::{Answer, Event, Fault, Hall, Proof, Query, Reply, Request, Step, Stepped, write_proof};
use names::{Entity, Role};
use search::{Hint, Need};
use std::alloc::Global;
use vaults::{Change, Row as HeldRow, Rows as Held, Seen};

/// What a tenant asks of a hall, or what is done for its search; a step names the number of the search first.
pub(super) enum Act {
    /// The credential that this text spells is uploaded.
    Put(&'static str),
    /// It is withdrawn.
    Drop(&'static str),
    /// The reader is granted the vault.
    Grant(&'static str),
    /// That is revoked.
    Revoke(&'static str),
    /// Every tenant is granted the vault.
    GrantAll,
    /// That is revoked.
    RevokeAll,
    /// Is the entity a member of the role?
    Ask(&'static str, &'static str),
    /// Who is a member of the role?
    Who(&'static str),
    Poll(u64),
    Close(u64),
    Vault,
    Sees,
    /// Why is the entity a member of the role that the search of this number asked about?
    Proof(u64, &'static str),
    /// The waiting letter at this place is taken.
    Take(u64, u64),
    /// The letter of this number is given back.
    GiveBack(u64, u64),
    /// The letter of this number is finished.
    Finish(u64, u64, Hint),
    /// The signal at this place is delivered.
    Signal(u64, u64),
}

/// Whose request or search it is, the act, and what it is to be answered.
pub(super) type Row = (&'static str, Act, Told);

/// What is wanted for an answer.
pub(super) enum Told {
    Counted(u64),
    Opened(u64),
    Working,
    Yes,
    No,
    Members(&'static [&'static [u8]]),
    Closed,
    /// The credentials that these texts spell.
    Vault(&'static [&'static str]),
    /// These lines.
    Proof(&'static str),
    /// These names, each with whether its vault is read by every tenant.
    Sees(&'static [(&'static [u8], bool)]),
    /// Refused by the fault of this number.
    Refused(u64),
    /// The letter of this number was taken, which needs the rows of this role.
    TookFor(u64, &'static str),
    /// The letter of this number was taken, which needs nothing.
    Took(u64),
    Nothing,
    Back,
    Signalled,
    Done,
    BadHint,
    NotHeld,
    Gone,
}

/// The change that the act stands for, which is one.
fn change_of(alloc: Global, act: &Act) -> Result<Change, CredFault> {
    Ok(match act {
        Act::Put(text) => Change::Upload(read_credential(alloc, text.as_bytes())?),
        Act::Drop(text) => Change::Withdraw(read_credential(alloc, text.as_bytes())?),
        Act::Grant(reader) => Change::Grant(Entity::read(reader.as_bytes())?),
        Act::Revoke(reader) => Change::Revoke(Entity::read(reader.as_bytes())?),
        Act::GrantAll => Change::GrantAll,
        _ => Change::RevokeAll,
    })
}

/// The request that the act stands for.
fn request_of(alloc: Global, act: &Act) -> Result<Request, CredFault> {
    Ok(match act {
        Act::Ask(role, member) => {
            let role = Role::read(role.as_bytes())?;
            Request::Seek(Query::Ask(role, Entity::read(member.as_bytes())?))
        }
        Act::Who(role) => Request::Seek(Query::Who(Role::read(role.as_bytes())?)),
        Act::Poll(number) => Request::Poll(*number),
        Act::Close(number) => Request::Close(*number),
        Act::Vault => Request::Vault,
        Act::Sees => Request::Sees,
        Act::Proof(number, member) => Request::Proof(*number, Entity::read(member.as_bytes())?),
        _ => Request::Alter(change_of(alloc, act)?),
    })
}

/// The event that the tenant's act stands for.
fn event_of(alloc: Global, who: &str, act: &Act) -> Result<Event, CredFault> {
    let who = Entity::read(who.as_bytes())?;
    Ok(match act {
        Act::Take(number, place) => Event::Step(Step::Take(who, *number, *place)),
        Act::GiveBack(number, letter) => Event::Step(Step::GiveBack(who, *number, *letter)),
        Act::Finish(number, letter, hint) => {
            Event::Step(Step::Finish(who, *number, *letter, *hint))
        }
        Act::Signal(number, place) => Event::Step(Step::Signal(who, *number, *place)),
        _ => Event::Request(who, request_of(alloc, act)?),
    })
}

/// Adds the events of the rows. Each text of a row is one that can be read, and so it is want of memory where one isn't.
fn add_events(alloc: Global, rows: &[Row], events: &mut Vec<Event>) -> Result<(), Fault> {
    for (who, act, _told) in rows {
        let event = event_of(alloc, who, act).or(Err(Fault::Memory))?;
        events.push(event)?;
    }
    Ok(())
}

/// Whether this is the role that the text spells.
fn is_role(role: &Role, text: &str) -> bool {
    match Role::read(text.as_bytes()) {
        Ok(spelled) => spelled == *role,
        Err(_) => false,
    }
}

/// Whether the text spells this row.
fn is_spelled(alloc: Global, row: &HeldRow, text: &[u8]) -> Result<bool, CredFault> {
    Ok(row.compare(&read_credential(alloc, text)?).is_eq())
}

/// Whether these are the credentials that the texts spell, in this order.
fn are_spelled(alloc: Global, rows: &Held<'_>, wanted: &[&str]) -> Result<bool, CredFault> {
    for (place, text) in wanted.iter().enumerate() {
        if place >= rows.len() || !is_spelled(alloc, rows.row(place), text.as_bytes())? {
            return Ok(false);
        }
    }
    Ok(rows.len() == wanted.len())
}

/// Whether these are the names, in this order, and whether their vaults are public.
fn are_seen(seen: &[Seen], names: &[(&[u8], bool)]) -> bool {
    for (seen, (name, to_all)) in seen.iter().zip(names) {
        if seen.name.bytes() != *name || seen.to_all != *to_all {
            return false;
        }
    }
    seen.len() == names.len()
}

/// Whether the proof is written in these lines.
fn is_written(alloc: Global, proof: &Proof, wanted: &str) -> Result<bool, Fault> {
    let mut lines = Vec::new(alloc);
    write_proof(proof, &mut lines)?;
    Ok(lines.as_slice() == wanted.as_bytes())
}

/// Whether the step went as is wanted. Where the search is broken, memory was refused.
pub(super) fn went(stepped: &Stepped, wanted: &Told) -> Result<bool, Fault> {
    match (stepped, wanted) {
        (Stepped::Broken, _) => Err(Fault::Memory),
        (Stepped::Took(letter, Need::Rows(role)), Told::TookFor(number, text)) => {
            Ok(letter == number && is_role(role, text))
        }
        (Stepped::Took(letter, Need::Nothing), Told::Took(number)) => Ok(letter == number),
        (Stepped::Nothing, Told::Nothing)
        | (Stepped::Back, Told::Back)
        | (Stepped::Signalled, Told::Signalled)
        | (Stepped::Done, Told::Done)
        | (Stepped::BadHint, Told::BadHint)
        | (Stepped::NotHeld, Told::NotHeld)
        | (Stepped::Gone, Told::Gone) => Ok(true),
        _ => Ok(false),
    }
}

/// Whether the search has come to what is wanted. Where it is broken, memory was refused.
pub(super) fn came_to(answer: &Answer, wanted: &Told) -> Result<bool, Fault> {
    match (answer, wanted) {
        (Answer::Broken, _) => Err(Fault::Memory),
        (Answer::Working, Told::Working) | (Answer::Yes, Told::Yes) | (Answer::No, Told::No) => {
            Ok(true)
        }
        (Answer::Members(names), Told::Members(wanted)) => Ok(are_named(names.as_slice(), wanted)),
        _ => Ok(false),
    }
}

/// Whether the reply is the one that is wanted, and not that memory was refused.
fn is_told(alloc: Global, reply: &Reply, wanted: &Told) -> Result<bool, Fault> {
    match (reply, wanted) {
        (Reply::Refused(Fault::Memory), _) => Err(Fault::Memory),
        (Reply::Refused(fault), Told::Refused(number)) => Ok(fault.number() == *number),
        (Reply::Answered(answer), _) => came_to(answer, wanted),
        (Reply::Stepped(stepped), _) => went(stepped, wanted),
        (Reply::Counted(count), Told::Counted(wanted)) => Ok(count == wanted),
        (Reply::Opened(number), Told::Opened(wanted)) => Ok(number == wanted),
        (Reply::Closed, Told::Closed) => Ok(true),
        (Reply::Vault(rows), Told::Vault(wanted)) => {
            are_spelled(alloc, &rows.lent(), wanted).or(Err(Fault::Memory))
        }
        (Reply::Sees(sights), Told::Sees(wanted)) => Ok(are_seen(sights.as_slice(), wanted)),
        (Reply::Proof(proof), Told::Proof(wanted)) => is_written(alloc, proof, wanted),
        _ => Ok(false),
    }
}

/// Whether the replies are those that the rows want.
fn are_told(alloc: Global, replies: &[Reply], rows: &[Row]) -> Result<bool, Fault> {
    for (reply, (_who, _act, told)) in replies.iter().zip(rows) {
        if !is_told(alloc, reply, told)? {
            return Ok(false);
        }
    }
    Ok(replies.len() == rows.len())
}

/// Whether each reply to the events is the one that its row wants.
fn replies_so(
    alloc: Global,
    hall: &mut Hall,
    events: &[Event],
    rows: &[Row],
) -> Result<bool, Fault> {
    let replies = hall.run(events)?;
    are_told(alloc, &replies, rows)
}

/// Runs the acts of the rows, and answers whether each reply is the one that is wanted.
pub(super) fn run(alloc: Global, hall: &mut Hall, rows: &[Row]) -> Result<bool, Fault> {
    let mut events = Vec::new(alloc);
    add_events(alloc, rows, &mut events)?;
    replies_so(alloc, hall, &events, rows)
}
