use crate::premises::Premises;
use credential_text::Expr;
use names::Entity;

/// The rule that a step is by, with the earlier steps that it stands on. Steps are counted from 0.
pub enum Rule {
    /// An entity is in itself.
    Leaf,
    /// Who is in the body of a credential is in its head. The step claims it of the body.
    Cred(usize),
    /// Who is in `B.t`, for some `B` in `A.s`, is in the linked role `A.s.t`. The first step claims `B` in `A.s`, the
    /// second who it is in `B.t`.
    Link(usize, usize),
    /// Who is in every part is in the intersection. There is one step for each part.
    Parts(Premises),
}

// By hand, so that who holds one drops it by one call, whose proof stands here.
impl Drop for Rule {
    fn drop(self) {
        match self {
            Rule::Parts(_premises) => {}
            Rule::Leaf | Rule::Cred(_) | Rule::Link(_, _) => {}
        }
    }
}

/// A step of a proof: it claims that the entity is in the expression, by the rule.
#[derive(Drop)]
pub struct Step {
    pub who: Entity,
    pub claim: Expr,
    pub rule: Rule,
}
