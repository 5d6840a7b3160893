ghost use Rattle.std.specs.Prelude.{◌≡◌, ◌<◌, Some, IfOk, IfSome, OnOk, OnErr, MatchOption, Contains, length, slice_get};
ghost use Rattle.credential_text.specs.declared.exprs.Expr.TheVariants as exprs;

use crate::listeners::{KeptListening, Port, keep_port, kept_port, port_name, port_number};
use crate::node_exprs::NodeExpr;
use crate::nodes::Nodes;
use crate::solutions::{Reason, reason_name, reason_number};
use crate::tables::Tables;
use credential_text::Expr;
use names::Entity;
use std::alloc::{AllocError, Global};
use std::marker::Model;

/// The nodes of a search with their listeners and solutions, each in order of adding. Nodes are numbered from 0, in 32
/// bits. An entity's number is that of the node whose expression it is; ports and solutions are kept by these numbers.
pub struct Graph {
    nodes: Nodes,
    // Who is named in a port, and had no node then.
    strangers: Nodes,
    tables: Tables,
}

impl Model for Graph {
    ghost use Rattle.cred_graph.specs.Graph.{GraphState};
    ghost use Rattle.cred_graph.specs.Stored.{graph_as, IsStored};

    ghost Value = { GraphState };

    ghost view = { λ g. graph_as g.nodes g.strangers g.tables.0 g.tables.1 };

    ghost invariant = { λ g. IsStored g.nodes g.strangers g.tables.0 g.tables.1 };
}

impl Drop for Graph {
    fn drop(self) {
        let Graph {
            nodes: _nodes,
            strangers: _strangers,
            tables: _tables,
        } = self;
    }
}

impl Graph {
    ghost use Rattle.cred_graph.specs.Graph.{empty_graph, IsNode, Listens, IsSolution, listeners_of, members_of, before, Fits};
    ghost use Rattle.cred_graph.specs.Graph.{IsGraph, NodeGiven, ListenerGiven, SolutionGiven};
    ghost use Rattle.cred_graph.specs.declared.listeners.Listening.{Listening};
    ghost use Rattle.cred_graph.specs.KeptExpr.{expr_lent};
    ghost use Rattle.cred_graph.specs.Numbers.{IsEntity, IsPort, IsNamed, IsReason, entity_at, port_at, reason_at};

    /// The graph without a node.
    pub fn new(alloc: Global) -> Self
        ensures empty { result ≡ empty_graph }
        ensures graph { IsGraph result }
    {
        Graph {
            nodes: Nodes::new(alloc),
            strangers: Nodes::new(alloc),
            tables: Tables::new(alloc),
        }
    }

    /// Makes room for so many nodes more. It is a hint: a graph is the same with it, nodes are added quicker, and no contract
    /// counts on the room.
    pub fn reserve(&mut self, count: u64) -> Result<(), AllocError>
        ensures unchanged { self.new ≡ self.old }
    {
        self.nodes.reserve(count)?;
        self.tables
            .reserve(self.nodes.count().saturating_add(count))
    }

    /// Gives back memory that nothing takes, where it is a good part. It is a hint too: a graph is the same without it.
    pub fn give_back(&mut self)
        ensures unchanged { self.new ≡ self.old }
    {
        self.nodes.give_back();
        self.tables.give_back();
    }

    /// Takes out all nodes with their listeners and solutions. Tables keep their memory for the next ones, but for what a
    /// small search doesn't need.
    pub fn clear(&mut self)
        ensures empty { self.new ≡ empty_graph }
        ensures graph { IsGraph self.new }
    {
        self.nodes.clear();
        self.strangers.clear();
        self.tables.clear();
    }

    /// The number of the expression's node, which is added if it isn't there, and whether it was added. A node beyond the
    /// 2^32nd is refused as want of memory.
    pub fn node_of(&mut self, expr: &Expr) -> Result<(u64, bool), AllocError>
        ensures ok { IfOk result (λ r. NodeGiven self.old self.new expr.now r.0 r.1) }
        ensures node { IfOk result (λ r. IsNode self.new r.0 expr.now) }
        ensures graph { IsGraph self.new }
        ensures growth { OnErr result (Contains self.old.nodes expr.now → ⊥) }
        ensures unchanged { OnErr result (self.new ≡ self.old) }
    {
        if let Some(n) = self.node(expr) {
            return Ok((n, false));
        }
        let n = self.nodes.add(expr)?;
        Ok((n as u64, true))
    }

    /// The number of the expression's node, if it has one.
    pub fn node(&self, expr: &Expr) -> Option<u64>
        ensures node { MatchOption result (Contains self.now.nodes expr.now → ⊥) (λ n. IsNode self.now n expr.now) }
        ensures graph { IsGraph self.now }
    {
        match self.nodes.number(expr) {
            Some(n) => Some(n as u64),
            None => None,
        }
    }

    /// The expression of the node.
    pub fn expr(&self, n: u64) -> NodeExpr<'_>
        requires { n < length self.now.nodes }
        ensures node { IsNode self.now n (expr_lent result) }
        ensures graph { IsGraph self.now }
    {
        self.nodes.expr(n)
    }

    /// Lets the node `m` listen to the node `n` on the port, and answers whether that is new. Of entities that ports name and
    /// that had no node then, the one beyond the 2^32nd is refused as want of memory.
    pub fn add_listener(&mut self, n: u64, m: u64, port: Port) -> Result<bool, AllocError>
        requires asked { n < length self.old.nodes }
        requires asker { m < length self.old.nodes }
        ensures ok { IfOk result (λ new. ListenerGiven self.old self.new n (record { asker = m; port = port }) new) }
        ensures listens { OnOk result (Listens self.new n (record { asker = m; port = port })) }
        ensures graph { IsGraph self.new }
        ensures growth { OnErr result (Listens self.old n (record { asker = m; port = port }) → ⊥) }
        ensures unchanged { OnErr result (self.new ≡ self.old) }
    {
        let port = keep_port(&self.nodes, &mut self.strangers, &port)?;
        let asker = m as u32;
        self.tables
            .add_listener(n as u32, KeptListening { asker, port })
    }

    /// How many listeners the node has.
    pub fn listeners(&self, n: u64) -> u64
        requires { n < length self.now.nodes }
        ensures count { result ≡ length (listeners_of self.now n) }
        ensures graph { IsGraph self.now }
    {
        self.tables.listeners(n as u32).len() as u64
    }

    /// The node that listens in this place among the node's listeners, and its port.
    pub fn listener(&self, n: u64, i: u64) -> (u64, Port)
        requires node { n < length self.now.nodes }
        requires place { i < length (listeners_of self.now n) }
        ensures { slice_get (listeners_of self.now n) i ≡ Some (record { asker = result.0; port = result.1 }) }
    {
        let kept = self.tables.listener(n as u32, i);
        let port = port_name(&self.nodes, &self.strangers, kept.port);
        (kept.asker as u64, port)
    }

    /// Makes the entity a solution of the node, and answers whether that is new. The first reason stays.
    pub fn add_solution(&mut self, n: u64, who: Entity, reason: Reason) -> Result<bool, AllocError>
        requires { Fits self.old n who reason }
        ensures ok { IfOk result (λ new. SolutionGiven self.old self.new (record { node = n; who = who; reason = reason }) new) }
        ensures solves { OnOk result (IsSolution self.new n who) }
        ensures graph { IsGraph self.new }
        ensures growth { OnErr result (IsSolution self.old n who → ⊥) }
        ensures unchanged { OnErr result (self.new ≡ self.old) }
    {
        let Some(number) = self.nodes.entity_number(&who) else {
            unreachable!()
        };
        let reason = reason_number(&self.nodes, &reason);
        self.add_numbered_solution(n, number, reason)
    }

    /// How many solutions the node has.
    pub fn solutions(&self, n: u64) -> u64
        requires { n < length self.now.nodes }
        ensures count { result ≡ length (members_of self.now n) }
        ensures graph { IsGraph self.now }
    {
        self.tables.members(n as u32).len() as u64
    }

    /// The solution of this place among the node's solutions.
    pub fn solution(&self, n: u64, i: u64) -> Entity
        requires node { n < length self.now.nodes }
        requires place { i < length (members_of self.now n) }
        ensures { slice_get (members_of self.now n) i ≡ Some result }
    {
        self.nodes.entity(self.tables.solution(n as u32, i))
    }

    /// The place of this solution of the node among all solutions of the graph, and its reason, if it is one.
    pub fn reason(&self, n: u64, who: &Entity) -> Option<(u64, Reason)>
        ensures found { MatchOption result (IsSolution self.now n who.now → ⊥) (λ r.
            slice_get self.now.solutions r.0 ≡ Some (record { node = n; who = who.now; reason = r.1 })) }
        ensures earlier { IfSome result (λ r. Fits (before r.0 self.now) n who.now r.1) }
    {
        if n >= self.nodes.count() {
            return None;
        }
        let Some(number) = self.nodes.entity_number(who) else {
            return None;
        };
        match self.tables.find(n as u32, number) {
            Some((place, reason)) => Some((place, reason_name(&self.nodes, reason))),
            None => None,
        }
    }

    /// The node's number in 32 bits.
    pub fn short(&self, n: u64) -> u32
        requires { n < length self.now.nodes }
        ensures { result ≡ n }
    {
        let _nodes = self.nodes.count();
        n as u32
    }

    /// The entity of this number.
    pub fn entity(&self, k: u32) -> Entity
        requires { IsEntity self.now.nodes k }
        ensures node { IsNode self.now k (exprs.Ent result) }
        ensures name { result ≡ entity_at self.now.nodes k }
    {
        self.nodes.entity(k)
    }

    /// The number of the entity, if it has a node.
    pub fn entity_number(&self, who: &Entity) -> Option<u32>
        ensures { MatchOption result (Contains self.now.nodes (exprs.Ent who.now) → ⊥) (λ k. IsNode self.now k (exprs.Ent who.now)) }
    {
        self.nodes.entity_number(who)
    }

    /// As `add_listener`, on a port with a number.
    pub fn add_numbered_listener(
        &mut self,
        n: u64,
        m: u64,
        port: Port<u32>,
    ) -> Result<bool, AllocError>
        requires asked { n < length self.old.nodes }
        requires asker { m < length self.old.nodes }
        requires port { IsPort self.old.nodes port }
        ensures ok { IfOk result (λ new. ListenerGiven self.old self.new n (record { asker = m; port = port_at self.old.nodes port }) new) }
        ensures listens { OnOk result (Listens self.new n (record { asker = m; port = port_at self.old.nodes port })) }
        ensures graph { IsGraph self.new }
        ensures growth { OnErr result (Listens self.old n (record { asker = m; port = port_at self.old.nodes port }) → ⊥) }
        ensures unchanged { OnErr result (self.new ≡ self.old) }
    {
        let port = kept_port(&self.nodes, &self.strangers, port);
        let asker = m as u32;
        self.tables
            .add_listener(n as u32, KeptListening { asker, port })
    }

    /// As `listener`, with the number of the port's name.
    pub fn numbered_listener(&self, n: u64, i: u64) -> (u64, Port<u32>)
        requires node { n < length self.now.nodes }
        requires place { i < length (listeners_of self.now n) }
        requires named { (l : Listening) → slice_get (listeners_of self.now n) i ≡ Some l → IsNamed self.now.nodes l.port }
        ensures port { IsPort self.now.nodes result.1 }
        ensures listener { slice_get (listeners_of self.now n) i
            ≡ Some (record { asker = result.0; port = port_at self.now.nodes result.1 }) }
    {
        let kept = self.tables.listener(n as u32, i);
        let port = port_number(&self.nodes, &self.strangers, kept.port);
        (kept.asker as u64, port)
    }

    /// As `add_solution`, with numbers for names.
    pub fn add_numbered_solution(
        &mut self,
        n: u64,
        who: u32,
        reason: Reason<u32, u32>,
    ) -> Result<bool, AllocError>
        requires entity { IsEntity self.old.nodes who }
        requires reason { IsReason self.old.nodes reason }
        requires fits { Fits self.old n (entity_at self.old.nodes who) (reason_at self.old.nodes reason) }
        ensures ok { IfOk result (λ new. SolutionGiven self.old self.new
            (record { node = n; who = entity_at self.old.nodes who; reason = reason_at self.old.nodes reason }) new) }
        ensures solves { OnOk result (IsSolution self.new n (entity_at self.old.nodes who)) }
        ensures graph { IsGraph self.new }
        ensures growth { OnErr result (IsSolution self.old n (entity_at self.old.nodes who) → ⊥) }
        ensures unchanged { OnErr result (self.new ≡ self.old) }
    {
        self.tables.add_solution(n as u32, who, reason)
    }

    /// As `solution`, by its number.
    pub fn numbered_solution(&self, n: u64, i: u64) -> u32
        requires node { n < length self.now.nodes }
        requires place { i < length (members_of self.now n) }
        ensures entity { IsEntity self.now.nodes result }
        ensures solution { slice_get (members_of self.now n) i ≡ Some (entity_at self.now.nodes result) }
    {
        self.tables.solution(n as u32, i)
    }
}
