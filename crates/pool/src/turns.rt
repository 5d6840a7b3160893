//! What the history of a desk keeps.
use hall::{Fault, Reply, Request};
use names::Entity;
use search::Search;
use std::marker::Model;
use std::snapshot::Snapshot;

/// A search as its asker knows it: what was asked, over which view, and what it has come to.
pub struct Known {
    search: Search,
}

impl Model for Known {
    ghost use Rattle.std.specs.Coded.{codes};
    ghost use Rattle.hall.specs.{Answers.Asked, Hall.known};

    ghost Value = { Asked };

    ghost coded = { Prim.hlevel codes };

    ghost view = { λ k. known k.search };
}

/// What the history keeps of one call. No value of it is ever made: the history exists in proofs alone.
pub enum Item {
    /// Under this name the hall was asked for the tenant, and told this.
    Told(u64, Entity, Request, Reply),
    /// Under this name the tenant's request read this search: what it is told is made of that alone.
    Read(u64, Entity, Request, Known),
    /// Under this name, which is no pass's, the desk was stopped.
    Stopped(u64),
}

/// What the history goes on by. It has no bytes but the tenant's name.
#[derive(Drop)]
pub enum Noted {
    Told(Entity, Snapshot<Request>, Snapshot<Result<Reply, Fault>>),
    Read(Entity, Snapshot<Request>, Snapshot<Search>),
    Stopped,
}
