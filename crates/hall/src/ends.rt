//! Searches that have come to their ends in visits, for those who wait for them.
ghost use Rattle.std.specs.Prelude.{◌≡◌, ◌≤◌, ◌↔◌, ◌++◌, ◌∷◌, [], length, IsTrue, MatchOption};

use names::Entity;
use std::marker::Model;

/// Searches by their tenants and numbers, which have come to their ends and of which nobody was told yet. It has room for two,
/// as many as may end in a visit: that of the letters, and that of the steps. It isn't `Drop`, so who has it tells of them.
pub struct Ends {
    first: Option<(Entity, u64)>,
    second: Option<(Entity, u64)>,
}

impl Model for Ends {
    ghost use Rattle.std.specs.Prelude.{◌≡◌, ◌∷◌, [], ℕ, List, None};
    ghost use Rattle.std.specs.List.{filter_map};

    ghost Value = { List (List ℕ × ℕ) };

    ghost view = { λ e. filter_map (λ end. end) (e.first ∷ e.second ∷ []) };

    ghost invariant = { λ e. e.first ≡ None → e.second ≡ None };
}

impl Ends {
    /// No search.
    pub fn none() -> Ends
        ensures { result ≡ [] }
    {
        Ends {
            first: None,
            second: None,
        }
    }

    /// Whether there is none.
    #[inline(always)]
    pub fn is_empty(&self) -> bool
        ensures { IsTrue result ↔ (self.now ≡ []) }
    {
        self.first.is_none()
    }

    /// Puts the tenant's search of the number behind the others.
    #[inline(never)]
    pub(crate) fn put(&mut self, who: &Entity, number: u64)
        requires { length self.old ≤ 1 }
        ensures { self.new ≡ self.old ++ (who.now, number) ∷ [] }
    {
        let end = Some((*who, number));
        if self.is_empty() {
            self.first = end;
        } else {
            self.second = end;
        }
    }

    /// Takes the last one out.
    #[inline(always)]
    pub fn take(&mut self) -> Option<(Entity, u64)>
        ensures { MatchOption result ((self.old ≡ []) × (self.new ≡ [])) (λ end. self.old ≡ self.new ++ end ∷ []) }
    {
        if self.is_empty() {
            return None;
        }
        self.take_last()
    }

    /// Takes the last one out, where there is one or none. Most visits end no search, and don't come here.
    #[inline(never)]
    fn take_last(&mut self) -> Option<(Entity, u64)>
        ensures { MatchOption result ((self.old ≡ []) × (self.new ≡ [])) (λ end. self.old ≡ self.new ++ end ∷ []) }
    {
        if self.second.is_some() {
            return self.second.take();
        }
        self.first.take()
    }

    /// Ends it, once all are told.
    pub fn destroy_empty(self)
        requires { self ≡ [] }
    {
        let Ends {
            first: _first,
            second: _second,
        } = self;
    }
}
