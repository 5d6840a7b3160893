ghost use Rattle.std.specs.Prelude.{◌≡◌, IfOk, OnErr};
ghost use Rattle.credential_text.specs.Expr.{IsIntersection};
ghost use Rattle.cred_graph.specs.KeptExpr.{expr_lent};

use credential_text::{Expr, Parts};
use names::{Entity, Role, RoleName};
use std::alloc::AllocError;

/// The expression of a node, as a graph lends it.
#[derive(Clone, Copy)]
pub enum NodeExpr<'a> {
    /// An entity.
    Ent(&'a Entity),
    /// A role.
    Rol(&'a Role),
    /// A linked role: its base, and the name of the roles of the base's members.
    Link(&'a Role, &'a RoleName),
    /// An intersection.
    Meet(&'a Parts),
}

impl<'a> NodeExpr<'a> {
    /// A copy of the expression. Only that of an intersection takes memory.
    pub fn to_expr(&self) -> Result<Expr, AllocError>
        ensures same { IfOk result (λ e. e ≡ expr_lent self.now) }
        ensures growth { OnErr result (IsIntersection (expr_lent self.now)) }
    {
        Ok(match self {
            NodeExpr::Ent(who) => Expr::Ent(**who),
            NodeExpr::Rol(role) => Expr::Rol(**role),
            NodeExpr::Link(base, name) => Expr::Link(**base, **name),
            NodeExpr::Meet(parts) => Expr::Meet(parts.try_clone()?),
        })
    }
}
