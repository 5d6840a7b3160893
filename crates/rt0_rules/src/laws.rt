ghost use Rattle.rt0_rules.specs.Laws.{MembersAreOne, MoreCredentialsKeepMembers, OrderAndRepeatsDontMatter};
ghost use Rattle.rt0_rules.specs.Laws.{WorkIsOne, WithinDoesNotExceed, AboveExceeds};

/// The laws of membership: a role has one list of members; who is a member stays one when credentials are added; the
/// order of the credentials, and how often one stands there, doesn't matter.
pub fn membership_is_exact()
    ensures members_are_one { MembersAreOne }
    ensures more_keep_members { MoreCredentialsKeepMembers }
    ensures order_and_repeats { OrderAndRepeatsDontMatter }
{}

/// The laws of work: a search has one work, and it exceeds a limit just where it is above it.
pub fn work_is_exact()
    ensures work_is_one { WorkIsOne }
    ensures within_does_not_exceed { WithinDoesNotExceed }
    ensures above_exceeds { AboveExceeds }
{}
