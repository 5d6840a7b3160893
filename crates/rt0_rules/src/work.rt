ghost use Rattle.std.specs.Prelude.{◌≡◌, ◌↔◌, ◌<◌, [], length, Contains, IsTrue, IfOk, OnOk};
ghost use Rattle.rt0_rules.specs.Facts.{all_entities, IsSound, IsClosed};
ghost use Rattle.rt0_rules.specs.Work.{ListsAll, IsWorkWithin};
ghost use Rattle.rt0_rules.specs.Asked.{IsWithNew, Adds, IsAskedWithin, members_among, count_of, IsCountedWithin};

use crate::asks::{Ask, asks_of};
use crate::facts::{Fact, holds};
use crate::members::{all_entities, all_known};
use credential_text::{Credential, Expr};
use names::{Entity, Role};
use std::alloc::{AllocError, Global};

/// The entities that stand in the bodies of the credentials, each once.
fn everyone_in(alloc: Global, credentials: &[Credential]) -> Result<Vec<Entity>, AllocError>
    ensures { IfOk result (λ everyone. ListsAll (Contains (all_entities credentials.now)) everyone.items) }
{
    let entities = all_entities(alloc, credentials)?;
    let mut everyone = Vec::new(alloc);
    for entity in &entities {
        push_new_entity(*entity, &mut everyone)?;
    }
    Ok(everyone)
}

/// Appends the entity, unless it stands there.
fn push_new_entity(entity: Entity, everyone: &mut Vec<Entity>) -> Result<(), AllocError>
    ensures { OnOk result (IsWithNew entity everyone.old.items everyone.new.items) }
{
    if !everyone.contains(&entity) {
        everyone.push(entity)?;
    }
    Ok(())
}

/// Whether the ask stands there.
fn is_among(asks: &[Ask], ask: &Ask) -> bool
    ensures { IsTrue result ↔ Contains asks.now ask.now }
{
    asks.contains(ask)
}

/// Appends the ask, unless it stands there.
fn push_new(ask: Ask, asks: &mut Vec<Ask>) -> Result<(), AllocError>
    ensures { OnOk result (IsWithNew ask asks.old.items asks.new.items) }
{
    if !is_among(asks, &ask) {
        asks.push(ask)?;
    }
    Ok(())
}

/// Appends those asks that don't stand there.
fn push_all_new(more: Vec<Ask>, asks: &mut Vec<Ask>) -> Result<(), AllocError>
    ensures { OnOk result (Adds more.items asks.old.items asks.new.items) }
{
    for ask in more {
        push_new(ask, asks)?;
    }
    Ok(())
}

/// Fills the list with what a search for the role's members asks, each ask once: what the role asks, and what each asked
/// expression asks in its turn. Answers whether these are all, which they aren't where they reach the limit.
fn ask_all(
    alloc: Global,
    credentials: &[Credential],
    facts: &[Fact],
    everyone: &[Entity],
    role: &Role,
    limit: u64,
    asks: &mut Vec<Ask>,
) -> Result<bool, AllocError>
    requires sound { IsSound credentials.now facts.now }
    requires closed { IsClosed credentials.now (all_entities credentials.now) facts.now }
    requires everyone { ListsAll (Contains (all_entities credentials.now)) everyone.now }
    requires empty { asks.old.items ≡ [] }
    ensures { IfOk result (λ all. IsAskedWithin credentials.now role.now limit all asks.new.items) }
{
    let first = asks_of(alloc, credentials, facts, everyone, &Expr::Rol(*role))?;
    push_all_new(first, asks)?;
    let mut next = 0;
    while next < asks.len() && (asks.len() as u64) < limit {
        let more = asks_of(alloc, credentials, facts, everyone, &asks[next].asked)?;
        push_all_new(more, asks)?;
        next += 1;
    }
    Ok((asks.len() as u64) < limit)
}

/// How many members the expression has.
fn member_count(facts: &[Fact], everyone: &[Entity], expr: &Expr) -> usize
    ensures { result ≡ length (members_among facts.now everyone.now expr.now) }
{
    everyone
        .iter()
        .copied()
        .filter(|who| holds(facts, who, expr))
        .count()
}

/// One, and the asks, and the members that each asker is told, where that is at most the limit.
fn work_of(facts: &[Fact], everyone: &[Entity], asks: &[Ask], limit: u64) -> Option<u64>
    requires { length asks.now < limit }
    ensures { IsCountedWithin limit (count_of facts.now everyone.now asks.now) result }
{
    let mut work = 1 + asks.len() as u64;
    for ask in asks {
        let told = member_count(facts, everyone, &ask.asked) as u64;
        if told > limit - work {
            return None;
        }
        work += told;
    }
    Some(work)
}

/// The work of a search for the role's members over these credentials, `None` where it is above the limit: one for the
/// search's first letter, one for each ask along which it has to go, and one for each member that an asker is told.
pub fn work_plain(
    alloc: Global,
    credentials: &[Credential],
    role: &Role,
    limit: u64,
) -> Result<Option<u64>, AllocError>
    ensures { IfOk result (λ work. IsWorkWithin credentials.now role.now limit work) }
{
    let everyone = everyone_in(alloc, credentials)?;
    let facts = all_known(alloc, credentials)?;
    let mut asks = Vec::new(alloc);
    if !ask_all(
        alloc,
        credentials,
        &facts,
        &everyone,
        role,
        limit,
        &mut asks,
    )? {
        return Ok(None);
    }
    Ok(work_of(&facts, &everyone, &asks, limit))
}
