ghost use Rattle.vaults.specs.Laws.{VaultsAreExact, ReadersAreExact, NamesReadAreExact, ViewsAreOfNamesRead, ViewsAreExact};
ghost use Rattle.vaults.specs.Laws.{MarksAreExact, PublicIsRead, GrantsAreApart, HeldAreIssued, GrantedAreOthers};
ghost use Rattle.vaults.specs.Laws.{HoldingIsOwn, GrantingIsOwn, PublishingIsOwn};
ghost use Rattle.vaults.specs.Laws.{VaultsAreOwn, ReadersAreOwn, GrantCountsAreOwn, RefusalsAreOwn};

/// A vault has exactly the credentials that its owner issues and holds, in order, each once; the readers of a vault
/// are exactly those that its owner granted last, in order, each once.
pub fn vaults_are_exact()
    ensures vaults { VaultsAreExact }
    ensures readers { ReadersAreExact }
{}

/// A view has exactly the names that its reader reads, in order, each once, each with its vault; its credentials are
/// exactly those that a readable owner issues and holds.
pub fn views_are_exact()
    ensures names { NamesReadAreExact }
    ensures vaults { ViewsAreOfNamesRead }
    ensures credentials { ViewsAreExact }
{}

/// Each name that is read is marked exactly where its vault is public, and everybody reads a public vault.
pub fn marks_are_exact()
    ensures marks { MarksAreExact }
    ensures public { PublicIsRead }
{}

/// Public reading, granted or revoked, leaves what single readers are granted as it is; and a grant to one reader, or its
/// end, leaves a vault public or not as it is.
pub fn grants_are_apart()
    ensures { GrantsAreApart }
{}

/// By accepted changes a tenant holds only what it issues, and grants only others.
pub fn accepted_changes_are_own()
    ensures holding { HeldAreIssued }
    ensures granting { GrantedAreOthers }
{}

/// What a tenant holds and grants, whether its vault is public, its vault, its readers, the count of its grants and the
/// refusals of its changes depend on its own entries alone.
pub fn own_entries_decide()
    ensures holding { HoldingIsOwn }
    ensures granting { GrantingIsOwn }
    ensures publishing { PublishingIsOwn }
    ensures vaults { VaultsAreOwn }
    ensures readers { ReadersAreOwn }
    ensures counts { GrantCountsAreOwn }
    ensures refusals { RefusalsAreOwn }
{}
