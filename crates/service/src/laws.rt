//! What holds of rosters and scripts by their definitions alone.
ghost use Rattle.service.specs.Laws.{OneReading, TwoScripts, OwnLinesAreAnswered, ScriptsAreIsolated};

/// A roster is read in one way: the same lines have no two lists of tenants, and no two lists of commands behind them.
pub fn rosters_have_one_reading()
    ensures { OneReading }
{}

/// Two scripts in which a tenant has the same limits, asks for the same and has the same in sight at each request give it
/// equal answers, place by place, where no reply to it lacked memory: whatever other tenants say in them, and also where it
/// polls in one and waits in the other. That a search still works is no answer, and two proofs of one membership may differ.
pub fn two_scripts()
    ensures { TwoScripts }
{}

/// Two scripts in which a tenant has the same limits, says the same and has the same in sight at each command answer each
/// of its lines by the same bytes, whatever other tenants say in them, where no reply to it says that memory lacked or that
/// a search is broken. Two proofs of one membership may differ; where it is told none, the same is printed for it from the first
/// byte to the last (`isolated`). Each of its lines has one reply (`own`).
pub fn scripts_are_isolated()
    ensures own { OwnLinesAreAnswered }
    ensures isolated { ScriptsAreIsolated }
{}

#[cfg(test)]
mod tests;
