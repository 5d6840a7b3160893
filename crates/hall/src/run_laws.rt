//! What holds of all runs, by their definitions alone: of one tenant's, whatever a hall is, and of a hall's.
ghost use Rattle.std.specs.Prelude.{◌≡◌, ◌++◌, ◌∷◌, ℕ, List, [], Option};
ghost use Rattle.std.specs.List.{AllZip};
ghost use Rattle.quotas.specs.Quota.{Quota};
ghost use Rattle.hall.specs.declared.{faults.Fault.Fault, calls.requests.Request.Request, calls.events.Event.Event};
ghost use Rattle.hall.specs.declared.calls.replies.Reply.{Reply, TheVariants.Refused};
ghost use Rattle.hall.specs.Answers.{Account, new_account, start_of, Sight, Refuses, Answers};
ghost use Rattle.hall.specs.Run.{Told, Turn, request_of, told_in, told_to, When, any_time, at_waits, IsRun, IsRunOf, AreRuns};
ghost use Rattle.hall.specs.Run.{Agree, HasMemory, IsSameDeed, IsRight};
ghost use Rattle.hall.specs.Hall.{HallState, account_of, Happens, Run, AreDone, IsSound, new_hall};

/// Two runs of a name from one account, or from none, in which it does the same and has the same in sight, give it replies that agree:
/// equal ones, or two proofs of one membership, but for want of memory. Where searches may settle at any time, one of the
/// two may say that a search still works or is not done.
pub fn two_worlds()
    ensures { (when : When) (tenant : List ℕ) (start end other_end : Option Account) (first second : List Turn)
        → IsRunOf when tenant start first end → IsRunOf when tenant start second other_end
        → AllZip IsSameDeed first second → HasMemory first → HasMemory second
        → AllZip (λ s t. Agree when s.reply t.reply) first second }
{}

/// What two scripts tell a tenant that has the same limits in both, does the same and sees the same agrees, whatever
/// other tenants hold and do.
pub fn scripts_are_isolated()
    ensures { (tenant : List ℕ) (roster others : List (List ℕ × Quota)) (told more : List Told)
        → AreRuns at_waits roster told → AreRuns at_waits others more
        → start_of tenant roster ≡ start_of tenant others → AllZip IsSameDeed (told_to tenant [] told) (told_to tenant [] more)
        → HasMemory (told_to tenant [] told) → HasMemory (told_to tenant [] more)
        → AllZip (λ s t. Agree at_waits s.reply t.reply) (told_to tenant [] told) (told_to tenant [] more) }
{}

/// A refusal that is due is told in any case, and nothing else happens: memory lacks only where none is due.
pub fn refusals_come_first()
    ensures { (tenant : List ℕ) (sees : Sight) (a b : Account) (q : Request) (f : Fault) (told : Reply)
        → Refuses tenant a q f → Answers tenant sees a q told b → (told ≡ Refused f) × (b ≡ a) }
{}

/// Each reply of a tenant's run that begins with nothing done is right: that a search ended is told of as it did, over what
/// its opening had in sight; a proof is one; and where there is none the entity is no member.
pub fn answers_are_true()
    ensures { (when : When) (tenant : List ℕ) (limits : Quota) (turns before after : List Turn) (end : Account) (t : Turn)
        → IsRun when tenant (new_account limits) turns end → turns ≡ before ++ t ∷ after
        → IsRight limits.work before (request_of t.deed) t.reply }
{}

/// To each tenant a run of a hall is one of its own turns, where searches settle at any time; what holds of a new hall stays.
pub fn runs_are_allowed()
    ensures allowed { (old new : HallState) (events : List Event) (replies : List Reply) → IsSound old → Run old events replies new
        → (tenant : List ℕ)
        → IsRunOf any_time tenant (account_of old tenant) (told_to tenant old.journal (told_in events replies)) (account_of new tenant) }
    ensures kept { (old new : HallState) (e : Event) (told : Reply) → IsSound old → Happens old e told new → IsSound new }
    ensures begun { (roster : List (List ℕ × Quota)) → IsSound (new_hall roster) }
{}

/// From a new hall on, what a tenant is told one deed after another is a run of its own turns, in which a search settles
/// where its tenant waits for it, and nowhere else.
pub fn scripts_are_exact()
    ensures { (roster : List (List ℕ × Quota)) (new : HallState) (told : List Told)
        → AreDone (new_hall roster) told new → AreRuns at_waits roster told }
{}
