ghost use Rattle.proof_trees.specs.Laws.{ProofsAreSound, NoProofIsEmpty, CitedAreCanonical};

/// The laws of proofs: what a proof proves is derivable from its credentials, and no proof is empty.
pub fn proofs_are_sound()
    ensures sound { ProofsAreSound }
    ensures not_empty { NoProofIsEmpty }
{}

/// The law of a proof's text: the credential that a step is by stands there in its canonical spelling.
pub fn cited_credentials_are_canonical()
    ensures { CitedAreCanonical }
{}
