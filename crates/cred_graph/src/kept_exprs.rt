ghost use Rattle.std.specs.Prelude.{◌≡◌, IfOk};
ghost use Rattle.credential_text.specs.declared.exprs.Expr.{Expr};
ghost use Rattle.credential_text.specs.Expr.{HasPartsInRange};
ghost use Rattle.cred_graph.specs.KeptExpr.{expr_lent};

use crate::node_exprs::NodeExpr;
use credential_text::Expr;
use indexmap::Equivalent;
use names::Entity;
use std::alloc::{AllocError, Global};
use std::hash::{Hash, Hasher};
use std::marker::Model;

/// An expression as a graph keeps it, in 72 bytes: an entity, which nearly every node of a large graph is, stands in place, and
/// any other behind an address.
pub struct KeptExpr {
    kept: Kept,
}

enum Kept {
    Ent(Entity),
    Far(Box<Expr>),
}

// By hand, so that who holds one drops it by one call, whose proof stands here.
impl Drop for KeptExpr {
    fn drop(self) {
        let KeptExpr { kept } = self;
        match kept {
            Kept::Ent(_who) => {}
            Kept::Far(_expr) => {}
        }
    }
}

impl Model for KeptExpr {
    ghost use Rattle.credential_text.specs.declared.exprs.Expr.{Expr};

    ghost Value = { Expr };

    ghost use Rattle.cred_graph.specs.KeptExpr.{expr_kept};

    ghost view = { λ k. expr_kept k.kept };
}

impl KeptExpr {
    /// A copy of the expression. That of an entity takes no memory.
    pub fn keep(alloc: Global, expr: &Expr) -> Result<KeptExpr, AllocError>
        ensures same { IfOk result (λ k. k ≡ expr.now) }
        ensures range { HasPartsInRange expr.now }
    {
        let kept = match expr {
            Expr::Ent(who) => Kept::Ent(*who),
            _ => Kept::Far(Box::new(alloc, expr.try_clone()?)?),
        };
        Ok(KeptExpr { kept })
    }

    /// The expression.
    #[inline(always)]
    pub fn lend(&self) -> NodeExpr<'_>
        ensures { expr_lent result ≡ self.now }
    {
        match &self.kept {
            Kept::Ent(who) => NodeExpr::Ent(who),
            Kept::Far(expr) => match expr.as_ref() {
                Expr::Ent(who) => NodeExpr::Ent(who),
                Expr::Rol(role) => NodeExpr::Rol(role),
                Expr::Link(base, name) => NodeExpr::Link(base, name),
                Expr::Meet(parts) => NodeExpr::Meet(parts),
            },
        }
    }
}

impl PartialEq for KeptExpr {
    ghost use Rattle.credential_text.specs.contracts.exprs.ExprPartialEq.TheImpl.Laws.{laws-law};

    ghost eq = { ⟦<Expr as PartialEq>⟧.eq };

    ghost laws = { laws-law };

    fn eq(&self, other: &KeptExpr) -> bool {
        match &self.kept {
            Kept::Ent(who) => (&Expr::Ent(*who)).equivalent(other),
            Kept::Far(expr) => expr.as_ref().equivalent(other),
        }
    }
}

impl Eq for KeptExpr {
    ghost use Rattle.credential_text.specs.contracts.exprs.ExprEq.TheImpl.Laws.{laws-law};

    ghost laws = { laws-law };
}

impl Hash for KeptExpr {
    ghost use Rattle.credential_text.specs.contracts.exprs.ExprHash.TheImpl.Laws.{respects_eq-law};

    ghost hash_input = { ⟦<Expr as Hash>⟧.hash_input };

    ghost respects_eq = { respects_eq-law };

    fn hash<H: Hasher>(&self, state: &mut H) {
        match &self.kept {
            Kept::Ent(who) => Expr::Ent(*who).hash(state),
            Kept::Far(expr) => expr.as_ref().hash(state),
        }
    }
}

// An expression is looked up as it is, without a copy.
impl Equivalent<KeptExpr> for &Expr {
    ghost use Rattle.credential_text.specs.contracts.exprs.ExprHash.TheImpl.Laws.{respects_eq-law};
    ghost use Rattle.credential_text.specs.contracts.exprs.ExprEq.TheImpl.Laws.{laws-law};

    ghost equivalent = { λ e. ⟦<Expr as PartialEq>⟧.eq e.now };

    ghost respects_hash = { λ e. respects_eq-law e.now };

    ghost respects_eq = { λ e. laws-law.congr e.now };

    #[inline(always)]
    fn equivalent(&self, key: &KeptExpr) -> bool {
        match &key.kept {
            Kept::Ent(other) => matches!(self, Expr::Ent(who) if who == other),
            Kept::Far(other) => *self == other.as_ref(),
        }
    }
}
