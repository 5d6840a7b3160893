//! The table of letters: how a node asks, finds a solution, hears an Ask, takes in what it is told, and opens. The rows stand as
//! in `specs/Answers.antt`.
ghost use Rattle.std.specs.Prelude.{◌≡◌, ◌++◌, ◌∷◌, [], Bool, List, IfOk, OnOk, if◌then◌else◌};
ghost use Rattle.std.specs.Prelude.{◌<◌, length, ℕ, Some, slice_get, ◌≤◌, option_copied};
ghost use Rattle.cred_graph.specs.Graph.{IsGraph, NodeGiven, Fits, IsNode};
ghost use Rattle.cred_graph.specs.Numbers.{IsPort, port_at, IsEntity, IsReason, entity_at, reason_at};
ghost use Rattle.credential_text.specs.declared.exprs.Expr.{Expr};
ghost use Rattle.search.specs.Answers.{new_monitor, AsksFor, Solves, HearsAsk, TellsLast, TellsBase};
ghost use Rattle.search.specs.Answers.{TellsPart, AsksEach, row_asks, part_asks, own_rows, Opens, progress, Answers, Awaits};
ghost use Rattle.search.specs.Numbered.{IsMonitor, monitor_at};
ghost use Rattle.names.specs.declared.roles.Role.{Role};
ghost use Rattle.credential_text.specs.declared.exprs.Expr.TheVariants as exprs;
ghost use Rattle.monitors.specs.MeetMonitor.{MeetTold};
ghost use Rattle.search.specs.declared.findings.Monitor.TheVariants as Monitor;
ghost use Rattle.snapshots.specs.Span.{role_rows, span_of};
ghost use Rattle.search.specs.Finish.{IsSpanFor};
ghost use Rattle.vaults.specs.Journal.{credentials};
ghost use Rattle.search.specs.Net.{Sent, IsLoad, load_at};

use crate::findings::{Findings, NumberedMonitor};
use crate::letters::{Held, Load};
use cred_graph::{Graph, NodeExpr, Port, Reason};
use credential_text::{Expr, Part};
use monitors::{KeyedMeet, ToldKeys};
use names::Role;
use scholten_core::Parent;
use snapshots::{Snapshot, Span};
use std::alloc::{AllocError, Global};

// What the node of the expression remembers before it is told anything.
fn monitor_for(alloc: Global, expr: &Expr) -> NumberedMonitor
    ensures same { (nodes : List Expr) → monitor_at nodes result ≡ new_monitor expr.now }
    ensures numbers { (nodes : List Expr) → IsMonitor nodes result }
{
    match expr {
        Expr::Ent(_) | Expr::Rol(_) => NumberedMonitor::Plain,
        Expr::Link(_base, _name) => NumberedMonitor::Link(ToldKeys::new(alloc)),
        Expr::Meet(parts) => NumberedMonitor::Meet(KeyedMeet::make(
            alloc,
            parts.as_slice().len() as u8,
        )),
    }
}

// The number of the expression's node, which is added with its monitor if it isn't there.
#[inline(always)]
pub(crate) fn node_for(found: &mut Findings, expr: &Expr) -> Result<u64, AllocError>
    ensures given { IfOk result (λ to. (new : Bool) × NodeGiven found.old.graph found.new.graph expr.now to new
        × (found.new.outs ≡ found.old.outs)
        × (found.new.monitors ≡ (if new then found.old.monitors ++ new_monitor expr.now ∷ [] else found.old.monitors))) }
    ensures laws { IsGraph found.new.graph }
{
    let (node, is_new) = found.graph.node_of(expr)?;
    if is_new {
        found.monitors.reserve(1)?;
        let monitor = monitor_for(*found.monitors.allocator(), expr);
        found.monitors.push_reserved(monitor);
    }
    Ok(node)
}

// Sends an Ask on the port to the node of the expression.
pub(crate) fn ask(found: &mut Findings, expr: &Expr, port: Port<u32>) -> Result<(), AllocError>
    requires { IsPort found.old.graph.nodes port }
    ensures { OnOk result (AsksFor found.old found.new expr.now (port_at found.old.graph.nodes port)) }
{
    let node = node_for(found, expr)?;
    found.send(node, Load::Ask(port))
}

// The entity is a solution of the node; where that is new, each listener of the node is told.
pub(crate) fn solve(
    found: &mut Findings,
    node: u64,
    who: u32,
    reason: Reason<u32, u32>,
) -> Result<(), AllocError>
    requires node { node < length found.old.graph.nodes }
    requires entity { IsEntity found.old.graph.nodes who }
    requires reason { IsReason found.old.graph.nodes reason }
    requires fits { Fits found.old.graph node (entity_at found.old.graph.nodes who) (reason_at found.old.graph.nodes reason) }
    ensures { OnOk result (Solves found.old found.new node
        (entity_at found.old.graph.nodes who) (reason_at found.old.graph.nodes reason)) }
{
    if found.graph.add_numbered_solution(node, who, reason)? {
        for place in 0..found.graph().listeners(node) {
            let (asker, port) = found.graph().numbered_listener(node, place);
            found.send(asker, Load::Tell(port, who))?;
        }
    }
    Ok(())
}

// The asker listens to the node on the port; where that is new, it is told each solution of the node.
pub(crate) fn hear_ask(
    found: &mut Findings,
    node: u64,
    asker: u64,
    port: Port<u32>,
) -> Result<(), AllocError>
    requires node { node < length found.old.graph.nodes }
    requires asker { asker < length found.old.graph.nodes }
    requires port { IsPort found.old.graph.nodes port }
    ensures { OnOk result (HearsAsk found.old found.new node asker (port_at found.old.graph.nodes port)) }
{
    if found.graph.add_numbered_listener(node, asker, port)? {
        for place in 0..found.graph().solutions(node) {
            let who = found.graph().numbered_solution(node, place);
            found.send(asker, Load::Tell(port, who))?;
        }
    }
    Ok(())
}

// Sends an Ask on the port to the node of the role. This stands apart, so that nothing else makes room for an expression.
#[inline(never)]
fn ask_role(found: &mut Findings, role: Role, port: Port<u32>) -> Result<(), AllocError>
    requires { IsPort found.old.graph.nodes port }
    ensures { OnOk result (AsksFor found.old found.new (Expr.Rol role) (port_at found.old.graph.nodes port)) }
{
    ask(found, &Expr::Rol(role), port)
}

// A linked role hears a member of its base; where that is new, it asks the member's role.
fn told_base(found: &mut Findings, node: u64, base: u32) -> Result<(), AllocError>
    requires entity { IsEntity found.old.graph.nodes base }
    requires link { (r : Role) × (name : List ℕ) × IsNode found.old.graph node (exprs.Link r name) }
    requires monitor { (x : List (List ℕ)) × (slice_get found.old.monitors node ≡ Some (Monitor.Link x)) }
    ensures { OnOk result (TellsBase found.old found.new node (entity_at found.old.graph.nodes base)) }
{
    let NumberedMonitor::Link(told) = &mut found.monitors[node as usize] else {
        unreachable!()
    };
    match told.hear(base) {
        Ok(true) => {
            let graph = found.graph();
            let NodeExpr::Link(_base, name) = graph.expr(node) else {
                unreachable!()
            };
            let owner = graph.entity(base);
            let role = Role { owner, name: *name };
            ask_role(found, role, Port::Via(base))
        }
        Ok(false) => Ok(()),
        Err(refusal) => Err(refusal),
    }
}

/// For the bodies of so many rows room is made as they are asked. For more it is made at once, so that tables grow once.
const FEW_ROWS: u64 = 16;

// A role asks the body of each of its rows. Where they are many, room is made for the nodes of all bodies at once, unless the
// last of these has a node already.
fn ask_rows(found: &mut Findings, snapshot: &Snapshot, span: Span) -> Result<(), AllocError>
    requires { (role : Role) × (span ≡ span_of snapshot.now.vaults role) }
    ensures { OnOk result ((role : Role) → span ≡ span_of snapshot.now.vaults role
        → AsksEach found.old (row_asks (role_rows snapshot.now.vaults role)) found.new) }
{
    let count = span.hi - span.lo;
    if count > FEW_ROWS
        && found
            .graph()
            .node(snapshot.row(span, count - 1).body())
            .is_none()
    {
        found.reserve(count)?;
    }
    for place in 0..count {
        let row = snapshot.row(span, place);
        ask(found, row.body(), Port::Body)?;
    }
    Ok(())
}

// An intersection asks each of its parts.
fn ask_parts(found: &mut Findings, parts: &[Part]) -> Result<(), AllocError>
    requires { length parts.now ≤ 8 }
    ensures { OnOk result (AsksEach found.old (part_asks 0 parts.now) found.new) }
{
    for (place, part) in parts.iter().enumerate() {
        ask(found, &part.expr(), Port::Part(place as u8))?;
    }
    Ok(())
}

// The node opens. Where the rows of a role stand is sought in the snapshot, unless that was looked up before. Only the parts
// of an intersection are copied.
pub(crate) fn open(
    found: &mut Findings,
    snapshot: &Snapshot,
    node: u64,
    looked_up: Option<&Span>,
) -> Result<(), AllocError>
    requires node { node < length found.old.graph.nodes }
    requires span { (e : Expr) → IsNode found.old.graph node e → IsSpanFor snapshot.now.vaults e (option_copied looked_up) }
    ensures { OnOk result ((e : Expr) → IsNode found.old.graph node e
        → Opens (own_rows snapshot.now.vaults e) found.old found.new node e) }
{
    match found.graph().expr(node) {
        NodeExpr::Ent(_who) => {
            let who = found.graph().short(node);
            solve(found, node, who, Reason::Leaf)
        }
        NodeExpr::Rol(role) => {
            let span = match looked_up {
                Some(span) => *span,
                None => snapshot.find(role),
            };
            ask_rows(found, snapshot, span)
        }
        NodeExpr::Link(base, _name) => {
            let base = *base;
            ask_role(found, base, Port::Base)
        }
        NodeExpr::Meet(parts) => {
            let parts = parts.try_clone()?;
            ask_parts(found, parts.as_slice())
        }
    }
}

// The receiver of the letter receives it, with the rows that its finisher looked up, and puts what it sends into the list.
// The environment's letter opens the asked role's node, and its first Ask any other. What is told is taken in by its port.
pub(crate) fn receive(
    found: &mut Findings,
    snapshot: &Snapshot,
    held: &Held<Load<u32>>,
    looked_up: Option<&Span>,
) -> Result<(), AllocError>
    requires none { found.old.outs ≡ [] }
    requires load { IsLoad found.old.graph.nodes held.now.load }
    requires awaits { (role : Role) × (rest : List Sent)
        × Awaits (credentials snapshot.now.vaults) role found.old.graph found.old.monitors rest
        held.now.from held.now.to (load_at found.old.graph.nodes held.now.load) }
    requires span { (e : Expr) → IsNode found.old.graph held.now.to e → IsSpanFor snapshot.now.vaults e (option_copied looked_up) }
    ensures { OnOk result (Answers snapshot.now.vaults (progress found.old.graph found.old.monitors []) found.new
        held.now.from held.now.to (load_at found.old.graph.nodes held.now.load)) }
{
    let node = held.to;
    let Parent::Node(sender) = held.from else {
        return open(found, snapshot, node, looked_up);
    };
    match held.load {
        Load::Ask(port) => {
            if node != 0 && found.graph().listeners(node) == 0 {
                open(found, snapshot, node, looked_up)?;
            }
            hear_ask(found, node, sender, port)
        }
        Load::Tell(port, who) => match port {
            Port::Body => {
                let body = found.graph().short(sender);
                solve(found, node, who, Reason::Body(body))
            }
            Port::Via(base) => solve(found, node, who, Reason::Via(base)),
            Port::Base => told_base(found, node, who),
            Port::Part(part) => {
                let NumberedMonitor::Meet(told) = &mut found.monitors[node as usize] else {
                    unreachable!()
                };
                match told.part_told(part, who) {
                    Ok(true) => solve(found, node, who, Reason::Parts),
                    Ok(false) => Ok(()),
                    Err(refusal) => Err(refusal),
                }
            }
        },
        Load::Start => unreachable!(),
    }
}
