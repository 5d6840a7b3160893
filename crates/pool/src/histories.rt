//! What holds of each history of a desk.
ghost use Rattle.pool.specs.Histories.{HistoriesGoOn};
ghost use Rattle.pool.specs.Passes.{SharesAddUp};
ghost use Rattle.pool.specs.Laws.{HistoriesAreTrue, HistoriesAgree, ReadsAreTold, RepliesAreExact, SessionsAreRuns};

/// What happens to a sound hall goes on with the history that ends in it.
pub fn histories_go_on()
    ensures { HistoriesGoOn }
{}

/// Whatever a tenant was told by an item of a legal history is right, by what that tenant was told before.
pub fn histories_are_true()
    ensures { HistoriesAreTrue }
{}

/// Two legal histories, perhaps of services with other tenants, in which a tenant begins alike, does the same and has the same
/// in sight tell it what agrees.
pub fn histories_agree()
    ensures { HistoriesAgree }
{}

/// A request that reads a search of a sound hall is told something.
pub fn reads_are_told()
    ensures { ReadsAreTold }
{}

/// What sessions were told, each by the items of its own name, is part of one run.
pub fn sessions_are_runs()
    ensures { SessionsAreRuns }
{}

/// What each name was told of accepted changes adds up to the journal's length.
pub fn shares_add_up()
    ensures { SharesAddUp }
{}

/// What a tenant is told in a legal history of changes, openings, vaults and names is what the turns before give it.
pub fn replies_are_exact()
    ensures { RepliesAreExact }
{}
