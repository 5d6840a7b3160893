ghost use Rattle.std.specs.Prelude.{◌≡◌, ◌<◌, ◌≤◌, ◌^◌, ◌∷◌, [], ◌++◌, Some, IfOk, OnOk, OnErr, MatchOption, Contains, length, slice_get};
ghost use Rattle.credential_text.specs.declared.exprs.Expr.{Expr};
ghost use Rattle.credential_text.specs.declared.exprs.Expr.TheVariants as exprs;
ghost use Rattle.credential_text.specs.Expr.{HasPartsInRange};

use crate::kept_exprs::KeptExpr;
use crate::node_exprs::NodeExpr;
use crate::table_space::{kept_room, kept_when_empty};
use credential_text::Expr;
use indexmap::IndexSet;
use names::Entity;
use std::alloc::{AllocError, Global};
use std::marker::Model;

/// So many nodes have numbers of 32 bits. Their expressions alone would take some 300 gigabytes, so a growth is refused long
/// before.
const MOST: usize = 1 << 32;

/// The expressions of the nodes, each once and by its node's number, which has 32 bits.
pub struct Nodes {
    exprs: IndexSet<KeptExpr>,
}

impl Model for Nodes {
    ghost use Rattle.std.specs.Prelude.{◌≤◌, ◌^◌, List, length};
    ghost use Rattle.credential_text.specs.declared.exprs.Expr.{Expr};

    ghost Value = { List Expr };

    ghost view = { λ n. n.exprs.keys };

    ghost invariant = { λ n. length n.exprs.keys ≤ 2 ^ 32 };
}

// By hand, so that who holds them drops them by one call, whose proof stands here.
impl Drop for Nodes {
    fn drop(self) {
        let Nodes { exprs: _exprs } = self;
    }
}

impl Nodes {
    ghost use Rattle.cred_graph.specs.Numbers.{IsEntity};
    ghost use Rattle.cred_graph.specs.KeptExpr.{expr_lent};

    /// No node.
    pub fn new(alloc: Global) -> Self
        ensures { result ≡ [] }
    {
        Nodes {
            exprs: IndexSet::new(alloc),
        }
    }

    /// The number of the expression's node, if it has one.
    pub fn number(&self, expr: &Expr) -> Option<u32>
        ensures { MatchOption result (Contains self.now expr.now → ⊥) (λ n. slice_get self.now n ≡ Some expr.now) }
    {
        match self.exprs.get_index_of(expr) {
            Some(n) => Some(n as u32),
            None => None,
        }
    }

    /// How many nodes there are.
    pub fn count(&self) -> u64
        ensures { result ≡ length self.now }
    {
        self.exprs.len() as u64
    }

    /// Makes room for so many nodes more.
    pub fn reserve(&mut self, count: u64) -> Result<(), AllocError>
        ensures { self.new ≡ self.old }
    {
        self.exprs.reserve(count as usize)
    }

    /// Gives back the memory that nothing takes, of a small table where that is more than half.
    pub fn give_back(&mut self)
        ensures { self.new ≡ self.old }
    {
        self.exprs
            .shrink_to(kept_room(self.exprs.len(), self.exprs.capacity()));
    }

    /// Takes out all nodes. The room of a small table stays, if much of it was taken.
    pub fn clear(&mut self)
        ensures { self.new ≡ [] }
    {
        let kept = kept_when_empty(self.exprs.len(), self.exprs.capacity());
        self.exprs.clear();
        self.exprs.shrink_to(kept);
    }

    /// Adds a node for an expression that has none, and answers its number. A number that doesn't fit 32 bits is refused.
    pub fn add(&mut self, expr: &Expr) -> Result<u32, AllocError>
        requires { Contains self.old expr.now → ⊥ }
        ensures number { IfOk result (λ n. n ≡ length self.old) }
        ensures added { OnOk result (self.new ≡ self.old ++ expr.now ∷ []) }
        ensures range { OnOk result (HasPartsInRange expr.now) }
        ensures unchanged { OnErr result (self.new ≡ self.old) }
    {
        let number = self.exprs.len();
        if number >= MOST {
            return Err(AllocError);
        }
        let _is_new = self
            .exprs
            .insert(KeptExpr::keep(*self.exprs.allocator(), expr)?)?;
        Ok(number as u32)
    }

    /// The expression of the node.
    #[inline(always)]
    pub fn expr(&self, n: u64) -> NodeExpr<'_>
        requires { n < length self.now }
        ensures { slice_get self.now n ≡ Some (expr_lent result) }
    {
        self.exprs.as_slice()[n as usize].lend()
    }

    /// The number of the entity's node, if it has one.
    pub fn entity_number(&self, who: &Entity) -> Option<u32>
        ensures { MatchOption result (Contains self.now (exprs.Ent who.now) → ⊥) (λ k. slice_get self.now k ≡ Some (exprs.Ent who.now)) }
    {
        self.number(&Expr::Ent(*who))
    }

    /// The entity of this number.
    pub fn entity(&self, k: u32) -> Entity
        requires { IsEntity self.now k }
        ensures { slice_get self.now k ≡ Some (exprs.Ent result) }
    {
        match self.expr(k as u64) {
            NodeExpr::Ent(who) => *who,
            _ => unreachable!(),
        }
    }
}
