use super::of_search::credentials;
use crate::{Premises, Proof, Rule, Step, check_proof, write_proof};
use credential_text::{CredFault, Credential, Expr, read_credential};
use names::{Entity, Role};
use std::alloc::{AllocError, Global};

/// Who a step is about, a credential whose body it claims, and the steps that it stands on.
type Row = (&'static [u8], &'static [u8], &'static [usize]);

/// What is wanted of a proof.
pub(super) enum Wanted {
    /// It is written in these lines, behind what stood there.
    Lines(&'static [u8]),
    /// Whether it is a proof by these credentials.
    By(&'static [&'static [u8]], bool),
    /// It has so many steps.
    Steps(usize),
}

/// Whether this is a proof by these credentials that the entity is in A.r.
fn is_proof(
    alloc: Global,
    proof: &Proof,
    who: &Entity,
    texts: &[&[u8]],
) -> Result<bool, CredFault> {
    let role = Role::read(b"A.r")?;
    let all = credentials(alloc, texts)?;
    Ok(check_proof(&all, &role, who, proof))
}

/// Writes it again where memory is refused, so that a test sees that the refusal left what stood there.
fn write(proof: &Proof, text: &mut Vec<u8>) -> Result<(), AllocError> {
    match write_proof(proof, text) {
        Ok(()) => Ok(()),
        Err(_) => write_proof(proof, text),
    }
}

/// Whether it is written as these lines, behind what stood there.
fn is_written(alloc: Global, proof: &Proof, lines: &[u8]) -> Result<bool, AllocError> {
    let mut text = Vec::from_slice(alloc, b"a proof:\n")?;
    write(proof, &mut text)?;
    Ok(text.as_slice() == lines)
}

/// Whether the proof that the entity is in A.r is as is wanted.
pub(super) fn is_wanted(
    alloc: Global,
    proof: &Proof,
    who: &Entity,
    wanted: &Wanted,
) -> Result<bool, CredFault> {
    match wanted {
        Wanted::Lines(lines) => Ok(is_written(alloc, proof, lines)?),
        Wanted::By(texts, holds) => Ok(is_proof(alloc, proof, who, texts)? == *holds),
        Wanted::Steps(count) => Ok(proof.steps().len() == *count),
    }
}

/// The rule of a claim that stands on these steps, which are eight at most.
fn rule(alloc: Global, claim: &Expr, steps: &[usize]) -> Option<Rule> {
    match (claim, steps) {
        (_, []) => Some(Rule::Leaf),
        (_, [step]) => Some(Rule::Cred(*step)),
        (Expr::Link(..), [base, step]) => Some(Rule::Link(*base, *step)),
        _ => Some(Rule::Parts(Premises::make(alloc, steps)?)),
    }
}

fn step(alloc: Global, (who, text, steps): &Row) -> Result<Step, CredFault> {
    let who = Entity::read(who)?;
    let Credential { head, body } = read_credential(alloc, text)?;
    let _head = head;
    match rule(alloc, &body, steps) {
        Some(rule) => Ok(Step {
            who,
            claim: body,
            rule,
        }),
        None => Err(CredFault::Parts),
    }
}

fn add_steps(alloc: Global, rows: &[Row], proof: &mut Proof) -> Result<(), CredFault> {
    for row in rows {
        proof.push(step(alloc, row)?)?;
    }
    Ok(())
}

/// Whether these steps prove of D what is wanted.
fn prove(alloc: Global, rows: &[Row], wanted: &Wanted) -> Result<bool, CredFault> {
    let mut proof = Proof::new(alloc);
    add_steps(alloc, rows, &mut proof)?;
    is_wanted(alloc, &proof, &Entity::read(b"D")?, wanted)
}

/// That D is in A.r by A.r <- A.s.t, A.s <- B and B.t <- D.
const TWO_VAULTS: &[Row] = &[
    (b"B", b"A.r <- B", &[]),
    (b"B", b"A.r <- A.s", &[0]),
    (b"D", b"A.r <- D", &[]),
    (b"D", b"A.r <- B.t", &[2]),
    (b"D", b"A.r <- A.s.t", &[1, 3]),
    (b"D", b"A.r <- A.r", &[4]),
];

/// As `TWO_VAULTS`, with another rule for the second step.
const CITES_A_LATER_STEP: &[Row] = &[
    (b"B", b"A.r <- B", &[]),
    (b"B", b"A.r <- A.s", &[5]),
    (b"D", b"A.r <- D", &[]),
    (b"D", b"A.r <- B.t", &[2]),
    (b"D", b"A.r <- A.s.t", &[1, 3]),
    (b"D", b"A.r <- A.r", &[4]),
];

const INTERSECTION: &[Row] = &[
    (b"D", b"A.r <- D", &[]),
    (b"D", b"A.r <- B.s", &[0]),
    (b"D", b"A.r <- B.s & D", &[1, 0]),
    (b"D", b"A.r <- A.r", &[2]),
];

const OVER_ITS_OWN_HEAD: &[Row] = &[
    (b"A", b"A.r <- A", &[]),
    (b"A", b"A.r <- A.r", &[0]),
    (b"D", b"A.r <- D", &[]),
    (b"D", b"A.r <- A.r", &[2]),
    (b"D", b"A.r <- A.r.r", &[1, 3]),
    (b"D", b"A.r <- A.r", &[4]),
];

const TWO_VAULTS_LINES: &[u8] = b"a proof:\n\
    1 B in B by itself\n\
    2 B in A.s by A.s <- B from 1\n\
    3 D in D by itself\n\
    4 D in B.t by B.t <- D from 3\n\
    5 D in A.s.t by link from 2 4\n\
    6 D in A.r by A.r <- A.s.t from 5\n";

const INTERSECTION_LINES: &[u8] = b"a proof:\n\
    1 D in D by itself\n\
    2 D in B.s by B.s <- D from 1\n\
    3 D in B.s & D by parts from 2 1\n\
    4 D in A.r by A.r <- B.s & D from 3\n";

const ALL_OF_TWO_VAULTS: &[&[u8]] = &[b"A.r <- A.s.t", b"A.s <- B", b"B.t <- D"];

/// Steps, and what is wanted of the proof that they make.
static PROOFS: [(&[Row], Wanted); 10] = [
    (TWO_VAULTS, Wanted::By(ALL_OF_TWO_VAULTS, true)),
    (
        TWO_VAULTS,
        Wanted::By(&[b"B.t <- D", b"A.s <- B", b"A.r <- A.s.t"], true),
    ),
    (
        TWO_VAULTS,
        Wanted::By(&[b"A.r <- A.s.t", b"A.s <- B"], false),
    ),
    (CITES_A_LATER_STEP, Wanted::By(ALL_OF_TWO_VAULTS, false)),
    (&[], Wanted::By(ALL_OF_TWO_VAULTS, false)),
    (TWO_VAULTS, Wanted::Lines(TWO_VAULTS_LINES)),
    (
        INTERSECTION,
        Wanted::By(&[b"A.r <- B.s & D", b"B.s <- D"], true),
    ),
    (INTERSECTION, Wanted::Lines(INTERSECTION_LINES)),
    (
        OVER_ITS_OWN_HEAD,
        Wanted::By(&[b"A.r <- A", b"A.r <- D", b"A.r <- A.r.r"], true),
    ),
    (
        OVER_ITS_OWN_HEAD,
        Wanted::By(&[b"A.r <- D", b"A.r <- A.r.r"], false),
    ),
];

#[test]
fn proofs_of_given_steps(rt: HostRuntime) -> Result<(), CredFault> {
    for (rows, wanted) in &PROOFS {
        assert!(rt; prove(rt.alloc(), rows, wanted)?);
    }
    Ok(())
}
