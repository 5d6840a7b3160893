ghost use Rattle.std.specs.Prelude.{ℕ, List, ◌<◌, ◌≡◌, ◌∷◌, [], length, IfOk, IfSome};
ghost use Rattle.credential_text.specs.declared.exprs.Expr.TheVariants.{Ent};
ghost use Rattle.credential_text.specs.Expr.{part_expr};
ghost use Rattle.cred_graph.specs.Graph.{IsNode};

use super::mix;
use cred_graph::{Graph, Port, Reason};
use credential_text::{CredFault, Expr, Part, Parts, read_credential};
use names::{Entity, Role, RoleName};
use std::alloc::{AllocError, Global};

/// The role that the text spells where it has a dot, and else the entity.
fn part_of(text: &[u8]) -> Option<Part> {
    if let Ok(role) = Role::read(text) {
        return Some(Part::Rol(role));
    }
    match Entity::read(text) {
        Ok(who) => Some(Part::Ent(who)),
        Err(_) => None,
    }
}

fn port_of(port: &Port<&[u8]>) -> Option<Port> {
    match port {
        Port::Body => Some(Port::Body),
        Port::Base => Some(Port::Base),
        Port::Part(part) => Some(Port::Part(*part)),
        Port::Via(who) => match Entity::read(who) {
            Ok(who) => Some(Port::Via(who)),
            Err(_) => None,
        },
    }
}

fn reason_of(reason: &Reason<u64, &[u8]>) -> Option<Reason> {
    match reason {
        Reason::Leaf => Some(Reason::Leaf),
        Reason::Body(m) => Some(Reason::Body(*m)),
        Reason::Parts => Some(Reason::Parts),
        Reason::Via(who) => match Entity::read(who) {
            Ok(who) => Some(Reason::Via(who)),
            Err(_) => None,
        },
    }
}

/// The number of the part's node.
fn number_of(graph: &Graph, part: Part) -> Option<u64>
    ensures node { IfSome result (λ n. IsNode graph.now n (part_expr part)) }
    ensures within { IfSome result (λ n. n < length graph.now.nodes) }
{
    graph.node(&part.expr())
}

/// The number of the node of the part that the text spells.
fn number_in(graph: &Graph, text: &[u8]) -> Option<u64>
    ensures { IfSome result (λ n. n < length graph.now.nodes) }
{
    match part_of(text) {
        Some(part) => number_of(graph, part),
        None => None,
    }
}

/// Whether the expression is given the node of this number, a new one or not.
fn gives(graph: &mut Graph, expr: &Expr, n: u64, is_new: bool) -> Result<bool, AllocError> {
    let (given, new) = graph.node_of(expr)?;
    Ok(given == n && new == is_new)
}

/// Whether the body of the credential that the text spells is.
fn gives_node(
    alloc: Global,
    graph: &mut Graph,
    text: &[u8],
    n: u64,
    is_new: bool,
) -> Result<bool, CredFault> {
    let credential = read_credential(alloc, text)?;
    Ok(gives(graph, &credential.body, n, is_new)?)
}

/// Whether the second becomes a listener to the first on this port, as is told.
fn listens(
    graph: &mut Graph,
    asked: &[u8],
    asker: &[u8],
    port: &Port<&[u8]>,
    told: Option<bool>,
) -> Result<bool, CredFault> {
    let Some(n) = number_in(graph, asked) else {
        return Ok(told.is_none());
    };
    let Some(m) = number_in(graph, asker) else {
        return Ok(told.is_none());
    };
    let Some(port) = port_of(port) else {
        return Ok(false);
    };
    Ok(told == Some(graph.add_listener(n, m, port)?))
}

/// The number of the entity that the text spells.
fn entity_number(graph: &Graph, who: &[u8]) -> Option<u32>
    ensures { IfSome result (λ k. (name : List ℕ) × IsNode graph.now k (Ent name)) }
{
    match Entity::read(who) {
        Ok(who) => graph.entity_number(&who),
        Err(_) => None,
    }
}

/// Whether the second becomes a listener to the first by way of the entity, by its number, as is told.
fn listens_by_number(
    graph: &mut Graph,
    asked: &[u8],
    asker: &[u8],
    who: &[u8],
    told: Option<bool>,
) -> Result<bool, CredFault> {
    let Some(n) = number_in(graph, asked) else {
        return Ok(told.is_none());
    };
    let Some(m) = number_in(graph, asker) else {
        return Ok(told.is_none());
    };
    let Some(k) = entity_number(graph, who) else {
        return Ok(told.is_none());
    };
    Ok(told == Some(graph.add_numbered_listener(n, m, Port::Via(k))?))
}

/// Whether the entity becomes its own solution, a new one or not.
fn solves_itself(graph: &mut Graph, who: &[u8], is_new: bool) -> Result<bool, CredFault> {
    let who = Entity::read(who)?;
    let Some(n) = number_of(graph, Part::Ent(who)) else {
        return Ok(false);
    };
    Ok(graph.add_solution(n, who, Reason::Leaf)? == is_new)
}

/// Whether the entity becomes its own solution by its number, a new one or not.
fn solves_by_number(graph: &mut Graph, who: &[u8], is_new: bool) -> Result<bool, CredFault> {
    let who = Entity::read(who)?;
    let Some(k) = graph.entity_number(&who) else {
        return Ok(false);
    };
    Ok(graph.add_numbered_solution(k as u64, k, Reason::Leaf)? == is_new)
}

/// Whether the role comes to have the entity by a credential of which that is the body, as is told.
fn solves_role(
    graph: &mut Graph,
    role: &[u8],
    who: &[u8],
    told: Option<bool>,
) -> Result<bool, CredFault> {
    let (Ok(role), Ok(who)) = (Role::read(role), Entity::read(who)) else {
        return Ok(false);
    };
    let Some(n) = number_of(graph, Part::Rol(role)) else {
        return Ok(told.is_none());
    };
    let Some(m) = number_of(graph, Part::Ent(who)) else {
        return Ok(told.is_none());
    };
    let Some(_reason) = graph.reason(m, &who) else {
        return Ok(told.is_none());
    };
    Ok(told == Some(graph.add_solution(n, who, Reason::Body(m))?))
}

fn solve_link(
    graph: &mut Graph,
    base: Role,
    name: RoleName,
    by: Entity,
    who: Entity,
) -> Result<Option<bool>, AllocError> {
    let Some(n) = number_of(graph, Part::Link(base, name)) else {
        return Ok(None);
    };
    let Some(m) = number_of(graph, Part::Rol(base)) else {
        return Ok(None);
    };
    let Some(k) = number_of(graph, Part::Rol(Role { owner: by, name })) else {
        return Ok(None);
    };
    let Some(_member) = graph.reason(m, &by) else {
        return Ok(None);
    };
    let Some(_given) = graph.reason(k, &who) else {
        return Ok(None);
    };
    Ok(Some(graph.add_solution(n, who, Reason::Via(by))?))
}

/// Whether `D` becomes a solution of `A.s.t` by way of `B`, as is told.
fn solves_link(graph: &mut Graph, told: Option<bool>) -> Result<bool, AllocError> {
    match (Role::read(b"A.s"), Role::read(b"B.t"), Entity::read(b"D")) {
        (Ok(base), Ok(given), Ok(who)) => {
            Ok(solve_link(graph, base, given.name, given.owner, who)? == told)
        }
        _ => Ok(false),
    }
}

fn pair_of(alloc: Global, first: Part, second: Part) -> Result<Option<Parts>, AllocError>
    ensures { IfOk result (λ made. IfSome made (λ parts. parts ≡ first ∷ second ∷ [])) }
{
    Parts::make(alloc, &[first, second])
}

fn solve_meet(
    alloc: Global,
    graph: &mut Graph,
    first: Part,
    second: Part,
    who: Entity,
) -> Result<Option<bool>, AllocError> {
    let Some(parts) = pair_of(alloc, first, second)? else {
        return Ok(None);
    };
    let Some(n) = graph.node(&Expr::Meet(parts)) else {
        return Ok(None);
    };
    let Some(m) = number_of(graph, first) else {
        return Ok(None);
    };
    let Some(k) = number_of(graph, second) else {
        return Ok(None);
    };
    let Some(_one) = graph.reason(m, &who) else {
        return Ok(None);
    };
    let Some(_other) = graph.reason(k, &who) else {
        return Ok(None);
    };
    Ok(Some(graph.add_solution(n, who, Reason::Parts)?))
}

/// Whether `D` becomes a solution of `D & A.r`, as is told.
fn solves_meet(alloc: Global, graph: &mut Graph, told: Option<bool>) -> Result<bool, AllocError> {
    match (Entity::read(b"D"), Role::read(b"A.r")) {
        (Ok(who), Ok(role)) => {
            Ok(solve_meet(alloc, graph, Part::Ent(who), Part::Rol(role), who)? == told)
        }
        _ => Ok(false),
    }
}

fn listener_of(graph: &Graph, asked: Part, i: u64) -> Option<(u64, Port)> {
    let n = number_of(graph, asked)?;
    if i < graph.listeners(n) {
        Some(graph.listener(n, i))
    } else {
        None
    }
}

/// Whether this is the node 0 on the port that is told, or there is none.
fn is_listener(listener: Option<(u64, Port)>, told: &Option<Port<&[u8]>>) -> bool {
    match (listener, told) {
        (Some((asker, port)), Some(told)) => asker == 0 && port_of(told) == Some(port),
        (None, None) => true,
        _ => false,
    }
}

fn has_listener(graph: &Graph, asked: &[u8], i: u64, told: &Option<Port<&[u8]>>) -> bool {
    match part_of(asked) {
        Some(part) => is_listener(listener_of(graph, part, i), told),
        None => false,
    }
}

fn solution_of(graph: &Graph, part: Part, i: u64) -> Option<Entity> {
    let n = number_of(graph, part)?;
    if i < graph.solutions(n) {
        Some(graph.solution(n, i))
    } else {
        None
    }
}

/// Whether the entity's one solution is itself.
fn has_itself(graph: &Graph, who: &[u8]) -> bool {
    match Entity::read(who) {
        Ok(who) => {
            solution_of(graph, Part::Ent(who), 0) == Some(who)
                && solution_of(graph, Part::Ent(who), 1).is_none()
        }
        Err(_) => false,
    }
}

/// Whether the entity is the first solution of its own node, by its number.
fn is_first_by_number(graph: &Graph, who: Entity) -> bool {
    let Some(n) = number_of(graph, Part::Ent(who)) else {
        return false;
    };
    graph.solutions(n) > 0 && graph.entity(graph.numbered_solution(n, 0)) == who
}

fn has_itself_by_number(graph: &Graph, who: &[u8]) -> bool {
    match Entity::read(who) {
        Ok(who) => is_first_by_number(graph, who),
        Err(_) => false,
    }
}

/// Whether this is the place and the reason that are told, or there is none.
fn is_reason(found: Option<(u64, Reason)>, told: &Option<(u64, Reason<u64, &[u8]>)>) -> bool {
    match (found, told) {
        (Some((place, reason)), Some((at, why))) => {
            place == *at && reason_of(why) == Some(reason)
        }
        (None, None) => true,
        _ => false,
    }
}

fn has_reason(graph: &Graph, n: u64, who: &[u8], told: &Option<(u64, Reason<u64, &[u8]>)>) -> bool {
    match Entity::read(who) {
        Ok(who) => is_reason(graph.reason(n, &who), told),
        Err(_) => false,
    }
}

/// Whether the part has the node of this number, which reads back as that node, or has none.
fn reads_back(graph: &Graph, text: &[u8], told: Option<u64>) -> bool {
    match number_in(graph, text) {
        Some(n) => match graph.expr(n).to_expr() {
            Ok(expr) => Some(n) == told && graph.node(&expr) == told,
            Err(_) => false,
        },
        None => told.is_none(),
    }
}

/// Whether the part's node has so many listeners and solutions.
fn has_counts(graph: &Graph, text: &[u8], listeners: u64, solutions: u64) -> bool {
    match number_in(graph, text) {
        Some(n) => graph.listeners(n) == listeners && graph.solutions(n) == solutions,
        None => false,
    }
}

/// What is done to a graph or asked of it, and what it is to answer: of an addition whether it is a new one, or nothing
/// where a node or a premise is missing.
enum Line {
    /// Room for so many nodes.
    Reserve(u64),
    /// Room that isn't needed is given back.
    GiveBack,
    /// A node for the body of the credential: its number, and whether it is new.
    Node(&'static [u8], u64, bool),
    /// A listener to the first by the second, on a port.
    Listen(&'static [u8], &'static [u8], Port<&'static [u8]>, Option<bool>),
    /// A listener to the first by the second, by way of an entity, by its number.
    ListenByNumber(&'static [u8], &'static [u8], &'static [u8], Option<bool>),
    /// The entity becomes its own solution.
    Itself(&'static [u8], bool),
    /// The entity becomes its own solution, by its number.
    ItselfByNumber(&'static [u8], bool),
    /// The role has the entity by a credential of which that is the body.
    Role(&'static [u8], &'static [u8], Option<bool>),
    /// `A.s.t` has `D` by way of `B`.
    Link(Option<bool>),
    /// `D & A.r` has `D`.
    Meet(Option<bool>),
    /// The listener at a place is the node 0 on a port, or there is none.
    Listener(&'static [u8], u64, Option<Port<&'static [u8]>>),
    /// The one solution of the entity's node is itself.
    HasItself(&'static [u8]),
    /// The first solution of the entity's node is itself, by its number.
    HasItselfByNumber(&'static [u8]),
    /// The place and the reason of an entity as a solution of the node of this number.
    Reason(u64, &'static [u8], Option<(u64, Reason<u64, &'static [u8]>)>),
    /// The node of a part.
    Stands(&'static [u8], Option<u64>),
    /// The number of an entity.
    Number(&'static [u8], u32),
    /// So many listeners and solutions of a part.
    Counts(&'static [u8], u64, u64),
}

/// Whether the graph answers the question as it is to.
fn tells_so(graph: &Graph, line: &Line) -> bool {
    match line {
        Line::Listener(asked, i, told) => has_listener(graph, asked, *i, told),
        Line::HasItself(who) => has_itself(graph, who),
        Line::HasItselfByNumber(who) => has_itself_by_number(graph, who),
        Line::Reason(n, who, told) => has_reason(graph, *n, who, told),
        Line::Stands(text, told) => reads_back(graph, text, *told),
        Line::Number(who, k) => entity_number(graph, who) == Some(*k),
        Line::Counts(text, listeners, solutions) => has_counts(graph, text, *listeners, *solutions),
        _ => false,
    }
}

/// Whether the graph answers the line as it is to.
fn is_so(alloc: Global, graph: &mut Graph, line: &Line) -> Result<bool, CredFault> {
    match line {
        Line::Reserve(count) => {
            graph.reserve(*count)?;
            Ok(true)
        }
        Line::GiveBack => {
            graph.give_back();
            Ok(true)
        }
        Line::Node(text, n, is_new) => gives_node(alloc, graph, text, *n, *is_new),
        Line::Listen(asked, asker, port, told) => listens(graph, asked, asker, port, *told),
        Line::ListenByNumber(asked, asker, who, told) => {
            listens_by_number(graph, asked, asker, who, *told)
        }
        Line::Itself(who, is_new) => solves_itself(graph, who, *is_new),
        Line::ItselfByNumber(who, is_new) => solves_by_number(graph, who, *is_new),
        Line::Role(role, who, told) => solves_role(graph, role, who, *told),
        Line::Link(told) => Ok(solves_link(graph, *told)?),
        Line::Meet(told) => Ok(solves_meet(alloc, graph, *told)?),
        _ => Ok(tells_so(graph, line)),
    }
}

fn code(port: Port) -> u64 {
    match port {
        Port::Body => 1,
        Port::Base => 2,
        Port::Via(_who) => 3,
        Port::Part(part) => mix(4, part as u64),
    }
}

/// The sum, with what can be read at this place of the node of an entity.
fn read_place(graph: &Graph, who: &Entity, i: u64, sum: u64) -> u64 {
    let is_itself = solution_of(graph, Part::Ent(*who), i) == Some(*who);
    match listener_of(graph, Part::Ent(*who), i) {
        Some((asker, port)) => mix(mix(mix(sum, asker), code(port)), is_itself as u64),
        None => mix(mix(sum, 1), is_itself as u64),
    }
}

/// A sum over what can be read of the node of an entity.
fn read_node(graph: &Graph, who: &Entity) -> u64 {
    let Some(n) = number_of(graph, Part::Ent(*who)) else {
        return 1;
    };
    let mut sum = mix(mix(n, graph.listeners(n)), graph.solutions(n));
    for i in 0..8 {
        sum = read_place(graph, who, i, sum);
    }
    match graph.reason(n, who) {
        Some((place, reason)) => mix(mix(sum, place), (reason == Reason::Leaf) as u64),
        None => mix(sum, 1),
    }
}

static SIX: [&[u8]; 6] = [b"A", b"B", b"C", b"D", b"E", b"F"];

/// A sum over what can be read of the nodes of all six.
fn read_all(graph: &Graph) -> u64 {
    let mut sum = 0;
    for name in &SIX {
        if let Ok(who) = Entity::read(name) {
            sum = mix(sum, read_node(graph, &who));
        }
    }
    sum
}

/// Whether the graph answers the line as it is to. Where memory is refused all is as before, and the same is done again.
fn is_so_in_the_end(alloc: Global, graph: &mut Graph, line: &Line) -> Result<bool, CredFault> {
    let before = read_all(graph);
    match is_so(alloc, graph, line) {
        Err(CredFault::Memory) => Ok(read_all(graph) == before && is_so(alloc, graph, line)?),
        told => told,
    }
}

/// Whether a graph that is empty at first answers each line as it is to.
fn all_so_anew(alloc: Global, lines: &[Line]) -> Result<bool, CredFault> {
    let mut graph = Graph::new(alloc);
    for line in lines {
        if !is_so_in_the_end(alloc, &mut graph, line)? {
            return Ok(false);
        }
    }
    Ok(true)
}

/// The lines of each graph, from the first on.
static GRAPHS: [&[Line]; 10] = [
    // One node for each expression.
    &[
        Line::Reserve(2),
        Line::Node(b"A.x <- A.r", 0, true),
        Line::Node(b"A.x <- D", 1, true),
        Line::Node(b"A.x <- A.r", 0, false),
        Line::GiveBack,
        Line::Stands(b"A.r", Some(0)),
        Line::Stands(b"D", Some(1)),
        Line::Stands(b"E", None),
    ],
    // Two ports are two listeners.
    &[
        Line::Listen(b"D", b"A.r", Port::Body, None),
        Line::Node(b"A.x <- A.r", 0, true),
        Line::Node(b"A.x <- D", 1, true),
        Line::Listen(b"D", b"A.r", Port::Body, Some(true)),
        Line::Listen(b"D", b"A.r", Port::Body, Some(false)),
        Line::Listen(b"D", b"A.r", Port::Part(0), Some(true)),
        Line::Listener(b"D", 0, Some(Port::Body)),
        Line::Listener(b"D", 1, Some(Port::Part(0))),
        Line::Listener(b"D", 2, None),
        Line::Listener(b"A.r", 0, None),
    ],
    // A fifth listener stands behind four.
    &[
        Line::Node(b"A.x <- A.r", 0, true),
        Line::Node(b"A.x <- D", 1, true),
        Line::Listen(b"D", b"A.r", Port::Part(0), Some(true)),
        Line::Listener(b"D", 0, Some(Port::Part(0))),
        Line::Listener(b"D", 1, None),
        Line::Listen(b"D", b"A.r", Port::Part(1), Some(true)),
        Line::Listener(b"D", 1, Some(Port::Part(1))),
        Line::Listener(b"D", 2, None),
        Line::Listen(b"D", b"A.r", Port::Part(2), Some(true)),
        Line::Listener(b"D", 2, Some(Port::Part(2))),
        Line::Listener(b"D", 3, None),
        Line::Listen(b"D", b"A.r", Port::Part(3), Some(true)),
        Line::Listener(b"D", 3, Some(Port::Part(3))),
        Line::Listener(b"D", 4, None),
        Line::Listen(b"D", b"A.r", Port::Part(4), Some(true)),
        Line::Listener(b"D", 4, Some(Port::Part(4))),
        Line::Listener(b"D", 5, None),
        Line::Listen(b"D", b"A.r", Port::Part(4), Some(false)),
        Line::Listener(b"D", 4, Some(Port::Part(4))),
        Line::Listener(b"D", 3, Some(Port::Part(3))),
        Line::Listener(b"D", 4, Some(Port::Part(4))),
        Line::Listener(b"D", 5, None),
    ],
    // A solution stands once, with its reason.
    &[
        Line::Node(b"A.x <- A.r", 0, true),
        Line::Node(b"A.x <- D", 1, true),
        Line::Role(b"A.r", b"D", None),
        Line::Itself(b"D", true),
        Line::Itself(b"D", false),
        Line::Role(b"A.r", b"D", Some(true)),
        Line::HasItself(b"D"),
        Line::Reason(1, b"D", Some((0, Reason::Leaf))),
        Line::Reason(0, b"D", Some((1, Reason::Body(1)))),
    ],
    // A linked role is solved by way of its base.
    &[
        Line::Node(b"A.x <- A.s.t", 0, true),
        Line::Node(b"A.x <- A.s", 1, true),
        Line::Node(b"A.x <- B.t", 2, true),
        Line::Node(b"A.x <- B", 3, true),
        Line::Node(b"A.x <- D", 4, true),
        Line::Itself(b"B", true),
        Line::Itself(b"D", true),
        Line::Role(b"A.s", b"B", Some(true)),
        Line::Link(None),
        Line::Role(b"B.t", b"D", Some(true)),
        Line::Link(Some(true)),
        Line::Reason(0, b"D", Some((4, Reason::Via(b"B")))),
        Line::Reason(0, b"B", None),
    ],
    // An intersection is solved by all its parts.
    &[
        Line::Node(b"A.x <- D & A.r", 0, true),
        Line::Node(b"A.x <- D", 1, true),
        Line::Node(b"A.x <- A.r", 2, true),
        Line::Itself(b"D", true),
        Line::Meet(None),
        Line::Role(b"A.r", b"D", Some(true)),
        Line::Meet(Some(true)),
        Line::Reason(0, b"D", Some((2, Reason::Parts))),
    ],
    // Numbers stand for names.
    &[
        Line::Node(b"A.x <- A.r", 0, true),
        Line::ListenByNumber(b"A.r", b"A.r", b"D", None),
        Line::Node(b"A.x <- D", 1, true),
        Line::Number(b"D", 1),
        Line::ListenByNumber(b"D", b"A.r", b"D", Some(true)),
        Line::Listen(b"D", b"A.r", Port::Via(b"D"), Some(false)),
        Line::Listener(b"D", 0, Some(Port::Via(b"D"))),
        Line::ItselfByNumber(b"D", true),
        Line::Itself(b"D", false),
        Line::HasItselfByNumber(b"D"),
        Line::Reason(1, b"D", Some((0, Reason::Leaf))),
    ],
    // A stranger goes on to be one listener.
    &[
        Line::Node(b"A.x <- A.r", 0, true),
        Line::Listen(b"A.r", b"A.r", Port::Via(b"D"), Some(true)),
        Line::Listen(b"A.r", b"A.r", Port::Via(b"D"), Some(false)),
        Line::Node(b"A.x <- D", 1, true),
        Line::ListenByNumber(b"A.r", b"A.r", b"D", Some(false)),
        Line::ListenByNumber(b"D", b"A.r", b"D", Some(true)),
        Line::Listener(b"A.r", 0, Some(Port::Via(b"D"))),
        Line::Listener(b"A.r", 1, None),
    ],
    // Listeners beyond eight stand once.
    &[
        Line::Node(b"A.x <- A.r", 0, true),
        Line::Node(b"A.x <- D", 1, true),
        Line::Listen(b"D", b"A.r", Port::Part(0), Some(true)),
        Line::Listener(b"D", 0, Some(Port::Part(0))),
        Line::Listener(b"D", 1, None),
        Line::Listen(b"D", b"A.r", Port::Part(1), Some(true)),
        Line::Listener(b"D", 1, Some(Port::Part(1))),
        Line::Listener(b"D", 2, None),
        Line::Listen(b"D", b"A.r", Port::Part(2), Some(true)),
        Line::Listener(b"D", 2, Some(Port::Part(2))),
        Line::Listener(b"D", 3, None),
        Line::Listen(b"D", b"A.r", Port::Part(3), Some(true)),
        Line::Listener(b"D", 3, Some(Port::Part(3))),
        Line::Listener(b"D", 4, None),
        Line::Listen(b"D", b"A.r", Port::Part(4), Some(true)),
        Line::Listener(b"D", 4, Some(Port::Part(4))),
        Line::Listener(b"D", 5, None),
        Line::Listen(b"D", b"A.r", Port::Part(5), Some(true)),
        Line::Listener(b"D", 5, Some(Port::Part(5))),
        Line::Listener(b"D", 6, None),
        Line::Listen(b"D", b"A.r", Port::Part(6), Some(true)),
        Line::Listener(b"D", 6, Some(Port::Part(6))),
        Line::Listener(b"D", 7, None),
        Line::Listen(b"D", b"A.r", Port::Part(7), Some(true)),
        Line::Listener(b"D", 7, Some(Port::Part(7))),
        Line::Listener(b"D", 8, None),
        Line::Listen(b"D", b"A.r", Port::Part(8), Some(true)),
        Line::Listener(b"D", 8, Some(Port::Part(8))),
        Line::Listener(b"D", 9, None),
        Line::Listen(b"D", b"A.r", Port::Part(9), Some(true)),
        Line::Listener(b"D", 9, Some(Port::Part(9))),
        Line::Listener(b"D", 10, None),
        Line::Listen(b"D", b"A.r", Port::Part(10), Some(true)),
        Line::Listener(b"D", 10, Some(Port::Part(10))),
        Line::Listener(b"D", 11, None),
        Line::Listen(b"D", b"A.r", Port::Part(0), Some(false)),
        Line::Listener(b"D", 0, Some(Port::Part(0))),
        Line::Listen(b"D", b"A.r", Port::Part(1), Some(false)),
        Line::Listener(b"D", 1, Some(Port::Part(1))),
        Line::Listen(b"D", b"A.r", Port::Part(2), Some(false)),
        Line::Listener(b"D", 2, Some(Port::Part(2))),
        Line::Listen(b"D", b"A.r", Port::Part(3), Some(false)),
        Line::Listener(b"D", 3, Some(Port::Part(3))),
        Line::Listen(b"D", b"A.r", Port::Part(4), Some(false)),
        Line::Listener(b"D", 4, Some(Port::Part(4))),
        Line::Listen(b"D", b"A.r", Port::Part(5), Some(false)),
        Line::Listener(b"D", 5, Some(Port::Part(5))),
        Line::Listen(b"D", b"A.r", Port::Part(6), Some(false)),
        Line::Listener(b"D", 6, Some(Port::Part(6))),
        Line::Listen(b"D", b"A.r", Port::Part(7), Some(false)),
        Line::Listener(b"D", 7, Some(Port::Part(7))),
        Line::Listen(b"D", b"A.r", Port::Part(8), Some(false)),
        Line::Listener(b"D", 8, Some(Port::Part(8))),
        Line::Listen(b"D", b"A.r", Port::Part(9), Some(false)),
        Line::Listener(b"D", 9, Some(Port::Part(9))),
        Line::Listen(b"D", b"A.r", Port::Part(10), Some(false)),
        Line::Listener(b"D", 10, Some(Port::Part(10))),
    ],
    // Each of six becomes its own solution, and listens to the first.
    &[
        Line::Node(b"A.x <- A", 0, true),
        Line::Listen(b"A", b"A", Port::Body, Some(true)),
        Line::Itself(b"A", true),
        Line::Node(b"A.x <- B", 1, true),
        Line::Listen(b"A", b"B", Port::Body, Some(true)),
        Line::Itself(b"B", true),
        Line::Node(b"A.x <- C", 2, true),
        Line::Listen(b"A", b"C", Port::Body, Some(true)),
        Line::Itself(b"C", true),
        Line::Node(b"A.x <- D", 3, true),
        Line::Listen(b"A", b"D", Port::Body, Some(true)),
        Line::Itself(b"D", true),
        Line::Node(b"A.x <- E", 4, true),
        Line::Listen(b"A", b"E", Port::Body, Some(true)),
        Line::Itself(b"E", true),
        Line::Node(b"A.x <- F", 5, true),
        Line::Listen(b"A", b"F", Port::Body, Some(true)),
        Line::Itself(b"F", true),
        Line::Counts(b"A", 6, 1),
    ],
];

#[test]
fn each_graph_answers_its_lines(rt: HostRuntime) -> Result<(), CredFault> {
    for lines in &GRAPHS {
        assert!(rt; all_so_anew(rt.alloc(), lines)?);
    }
    Ok(())
}
