//! Calls of a desk as a table writes them, and what each is told.
use super::turns::put_circle;
use crate::tests_below::are_named;
use crate::{Authority, Desk, DeskFault, Naming, Pass, Verdict};
use credential_text::{CredFault, Credential, Expr, read_credential};
use hall::{Answer, Fault, Query, Request};
use names::{Entity, Role};
use snapshots::Span;
use std::alloc::Global;
use std::mem;
use std::sync::Wait;
use vaults::{Change, Rows, Seen};

/// What is asked of a desk.
#[derive(Clone, Copy)]
pub(super) enum Act {
    /// The credential that this text spells is uploaded.
    Put(&'static str),
    /// The credentials of a circle of roles are.
    PutCircle,
    /// It is withdrawn.
    Drop(&'static str),
    /// The reader is granted the vault.
    Grant(&'static str),
    /// The grant to the reader is taken back.
    Revoke(&'static str),
    /// Every tenant is granted the vault.
    GrantAll,
    /// That is taken back.
    RevokeAll,
    /// Is the entity a member of the role?
    Ask(&'static str, &'static str),
    /// Who is a member of the role?
    Who(&'static str),
    /// The search of this number is polled.
    Poll(u64),
    /// It is waited for, and then polled: what is its end?
    Wait(u64),
    /// It is waited for, and then polled: what has it to do with this credential?
    Find(u64, &'static str),
    /// Why is the entity a member?
    Proof(u64, &'static str),
    End(u64),
    /// Is the vault this credential alone?
    Vault(&'static str),
    /// Whose vaults does the tenant read?
    Sees,
    Stop,
    /// A new pass of this tenant takes the place of the pass, which leaves.
    Pass(&'static str),
    /// What has the pass seen, and of how many changes was it told?
    Share,
}

/// What is told, or wanted.
#[derive(Clone, Copy, PartialEq)]
pub(super) enum Told {
    Counted(u64),
    /// The number of a search, and the length of the journal at its opening.
    Opened(u64, u64),
    Working,
    Yes,
    No,
    /// The names `E1` to `E40`, in order.
    Forty,
    Spent,
    /// Where the search reads the rows of the credential's role, whether the first of them is the credential, and whether
    /// the search is for the credential's member in its role.
    Found(Span, bool, bool),
    /// A proof of so many steps.
    Steps(usize),
    /// So many rows, and whether the first is the credential.
    Rows(usize, bool),
    /// The tenant reads so many vaults, and so many of them are public.
    Seen(usize, usize),
    /// The length of the journal that was seen, and the share of the pass.
    Share(u64, u64),
    Done,
    /// Refused by the fault of this number.
    Refused(u64),
    /// Refused for want of memory, or ended by it.
    NoMemory,
    /// What no table wants: another answer by the poll than by the wait, other members, a text that is no name.
    Otherwise,
}

/// The names `E1` to `E40`, in order.
pub(super) static FORTY: [&[u8]; 40] = [
    b"E1", b"E10", b"E11", b"E12", b"E13", b"E14", b"E15", b"E16", b"E17", b"E18", b"E19", b"E2",
    b"E20", b"E21", b"E22", b"E23", b"E24", b"E25", b"E26", b"E27", b"E28", b"E29", b"E3", b"E30",
    b"E31", b"E32", b"E33", b"E34", b"E35", b"E36", b"E37", b"E38", b"E39", b"E4", b"E40", b"E5",
    b"E6", b"E7", b"E8", b"E9",
];

pub(super) fn refused(fault: DeskFault) -> Told {
    match fault {
        DeskFault::Hall(Fault::Memory) => Told::NoMemory,
        _ => Told::Refused(fault.number()),
    }
}

fn end_of(answer: &Answer) -> Told {
    match answer {
        Answer::Working => Told::Working,
        Answer::Yes => Told::Yes,
        Answer::No => Told::No,
        Answer::Members(names) if are_named(names.as_slice(), &FORTY) => Told::Forty,
        Answer::Members(_names) => Told::Otherwise,
        Answer::Spent => Told::Spent,
        Answer::Broken => Told::NoMemory,
    }
}

/// Whether the two queries are one.
fn is_query(one: Query, other: Query) -> bool {
    match (one, other) {
        (Query::Ask(role, who), Query::Ask(same, it)) => role == same && who == it,
        (Query::Who(role), Query::Who(same)) => role == same,
        _ => false,
    }
}

/// Whether the query is for the credential's member in its role.
fn is_for(query: Query, credential: &Credential) -> bool {
    match &credential.body {
        Expr::Ent(who) => is_query(query, Query::Ask(credential.head, *who)),
        _ => false,
    }
}

/// What the verdict has to do with the credential, or else its end.
fn told_by(verdict: &Verdict, about: Option<&Credential>) -> Told {
    let Some(credential) = about else {
        return end_of(&verdict.answer);
    };
    let span = verdict.snapshot.find(&credential.head);
    let is_first = span.lo < span.hi && verdict.snapshot.row(span, 0).compare(credential).is_eq();
    Told::Found(span, is_first, is_for(verdict.query, credential))
}

/// What both verdicts tell.
fn told_twice(waited: &Verdict, polled: &Verdict, about: Option<&Credential>) -> Told {
    let told = told_by(waited, about);
    if told_by(polled, about) == told && is_query(waited.query, polled.query) {
        told
    } else {
        Told::Otherwise
    }
}

/// What a wait tells, where a poll tells the same.
fn waited<L: Naming, R: Wait>(
    rt: &R,
    desk: &Desk<L>,
    pass: &mut Pass<L>,
    number: u64,
    about: Option<&Credential>,
) -> Told {
    let waited = match desk.wait(rt, pass, number) {
        Ok(verdict) => verdict,
        Err(fault) => return refused(fault),
    };
    match desk.poll(rt, pass, number) {
        Ok(polled) => told_twice(&waited, &polled, about),
        Err(fault) => refused(fault),
    }
}

fn rows_told(rows: &Rows<'_>, credential: &Credential) -> Told {
    if rows.len() == 0 {
        return Told::Rows(0, false);
    }
    let first = rows.row(0);
    Told::Rows(rows.len(), first.compare(credential).is_eq())
}

fn held<L: Naming, R: Wait>(
    rt: &R,
    desk: &Desk<L>,
    pass: &mut Pass<L>,
    credential: &Credential,
) -> Told {
    match desk.vault(rt, pass) {
        Ok(rows) => rows_told(&rows.lent(), credential),
        Err(fault) => refused(fault),
    }
}

fn sights_told(seen: &[Seen]) -> Told {
    let mut public = 0usize;
    for one in seen {
        if one.to_all {
            public = public.saturating_add(1);
        }
    }
    Told::Seen(seen.len(), public)
}

/// What a call with the request is told.
fn answered<L: Naming, R: Wait>(
    rt: &R,
    desk: &Desk<L>,
    pass: &mut Pass<L>,
    request: Request,
) -> Result<Told, DeskFault> {
    Ok(match request {
        Request::Alter(change) => Told::Counted(desk.change(rt, pass, change)?),
        Request::Seek(query) => {
            let ticket = desk.open(rt, pass, query)?;
            Told::Opened(ticket.no, ticket.opened_at)
        }
        Request::Poll(number) => told_by(&desk.poll(rt, pass, number)?, None),
        Request::Close(number) => {
            desk.end(rt, pass, number)?;
            Told::Done
        }
        Request::Proof(number, member) => {
            Told::Steps(desk.proof(rt, pass, number, member)?.steps().len())
        }
        Request::Sees => sights_told(desk.sees(rt, pass)?.as_slice()),
        Request::Vault => Told::Otherwise,
    })
}

fn renewed<L: Naming, R: Wait>(
    rt: &R,
    desk: &Desk<L>,
    authority: &Authority<L>,
    pass: &mut Pass<L>,
    who: Entity,
) -> Told {
    match desk.pass(rt, authority.admission(), who) {
        Ok(other) => {
            desk.leave(rt, mem::replace(pass, other).end());
            Told::Done
        }
        Err((_admission, fault)) => refused(fault),
    }
}

/// The request of an act that is a call with one.
fn request_of(alloc: Global, act: Act) -> Result<Request, CredFault> {
    Ok(match act {
        Act::Put(text) => Request::Alter(Change::Upload(read_credential(alloc, text.as_bytes())?)),
        Act::Drop(text) => {
            Request::Alter(Change::Withdraw(read_credential(alloc, text.as_bytes())?))
        }
        Act::Grant(name) => Request::Alter(Change::Grant(Entity::read(name.as_bytes())?)),
        Act::Revoke(name) => Request::Alter(Change::Revoke(Entity::read(name.as_bytes())?)),
        Act::GrantAll => Request::Alter(Change::GrantAll),
        Act::RevokeAll => Request::Alter(Change::RevokeAll),
        Act::Ask(role, name) => Request::Seek(Query::Ask(
            Role::read(role.as_bytes())?,
            Entity::read(name.as_bytes())?,
        )),
        Act::Who(role) => Request::Seek(Query::Who(Role::read(role.as_bytes())?)),
        Act::Poll(number) => Request::Poll(number),
        Act::End(number) => Request::Close(number),
        Act::Proof(number, name) => Request::Proof(number, Entity::read(name.as_bytes())?),
        _ => Request::Sees,
    })
}

/// What an act about a credential is told.
fn about_credential<L: Naming, R: Wait>(
    rt: &R,
    desk: &Desk<L>,
    pass: &mut Pass<L>,
    act: Act,
    credential: &Credential,
) -> Told {
    match act {
        Act::Find(number, _) => waited(rt, desk, pass, number, Some(credential)),
        _ => held(rt, desk, pass, credential),
    }
}

/// What the act is told. A text of a table spells what it has to, and so it is want of memory where it isn't read.
pub(super) fn answer_to<L: Naming, R: Wait>(
    rt: &R,
    alloc: Global,
    desk: &Desk<L>,
    authority: &Authority<L>,
    pass: &mut Pass<L>,
    act: Act,
) -> Told {
    match act {
        Act::Find(_, text) | Act::Vault(text) => match read_credential(alloc, text.as_bytes()) {
            Ok(credential) => about_credential(rt, desk, pass, act, &credential),
            Err(_) => Told::NoMemory,
        },
        Act::Wait(number) => waited(rt, desk, pass, number, None),
        Act::Pass(name) => match Entity::read(name.as_bytes()) {
            Ok(who) => renewed(rt, desk, authority, pass, who),
            Err(_) => Told::Otherwise,
        },
        Act::Share => Told::Share(pass.front(), pass.share()),
        Act::PutCircle => put_circle(rt, desk, pass),
        Act::Stop => {
            desk.stop(rt, authority);
            Told::Done
        }
        _ => match request_of(alloc, act) {
            Ok(request) => match answered(rt, desk, pass, request) {
                Ok(told) => told,
                Err(fault) => refused(fault),
            },
            Err(_) => Told::NoMemory,
        },
    }
}
