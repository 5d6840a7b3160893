//! The commands of scripts and sessions.
ghost use Rattle.std.specs.Prelude.{◌≡◌, ◌≤◌, ◌⊎◌, [], ◌∷◌, None, Some, length, IfOk, IfErr};
ghost use Rattle.credential_text.specs.{declared.faults.CredFault.CredFault, Spelling.Spells};
ghost use Rattle.credential_text.specs.Refusal as credential;
ghost use Rattle.service.specs.Command.{form_of, form_in, forms_with, Reads};

use crate::refusals::Refusal;
use crate::words::{Arguments, is_same, next_word, number, split_words};
use credential_text::{CredFault, Credential, read_credential};
use hall::{Query, Request};
use names::{Entity, Role};
use std::alloc::Global;
use vaults::Change;

/// What a tenant may say.
#[derive(Drop)]
pub(crate) enum Command {
    Request(Request),
    /// Wait for the answer of the search with this number.
    Wait(u64),
}

/// The command that the text writes, or why it writes none: the first refusal from left to right, and want of memory last.
pub(crate) fn read_command(alloc: Global, text: &[u8]) -> Result<Command, Refusal>
    ensures { Reads (form_of text.now) result }
{
    let Some((verb, rest)) = next_word(text) else {
        return Err(Refusal::Command);
    };
    if is_same(verb, b"put") {
        return Ok(Command::Request(Request::Alter(Change::Upload(credential_of(alloc, rest)?))));
    }
    if is_same(verb, b"drop") {
        return Ok(Command::Request(Request::Alter(Change::Withdraw(credential_of(alloc, rest)?))));
    }
    match split_words(rest) {
        Arguments::Nothing if is_same(verb, b"vault") => Ok(Command::Request(Request::Vault)),
        Arguments::Nothing if is_same(verb, b"sees") => Ok(Command::Request(Request::Sees)),
        Arguments::Nothing | Arguments::More => Err(Refusal::Command),
        Arguments::One(word) => read_with_one(verb, word),
        Arguments::Two(first, second) => read_with_two(verb, first, second),
    }
}

/// The command of a verb and one word. A star stands for every reader, and is no name.
fn read_with_one(verb: &[u8], word: &[u8]) -> Result<Command, Refusal>
    ensures { Reads (form_in (forms_with (word.now ∷ [])) verb.now) result }
{
    if is_same(verb, b"grant") {
        if is_same(word, b"*") {
            return Ok(Command::Request(Request::Alter(Change::GrantAll)));
        }
        return Ok(Command::Request(Request::Alter(Change::Grant(Entity::read(word)?))));
    }
    if is_same(verb, b"revoke") {
        if is_same(word, b"*") {
            return Ok(Command::Request(Request::Alter(Change::RevokeAll)));
        }
        return Ok(Command::Request(Request::Alter(Change::Revoke(Entity::read(word)?))));
    }
    if is_same(verb, b"who") {
        return Ok(Command::Request(Request::Seek(Query::Who(Role::read(word)?))));
    }
    match number(word) {
        Some(search) if is_same(verb, b"poll") => Ok(Command::Request(Request::Poll(search))),
        Some(search) if is_same(verb, b"wait") => Ok(Command::Wait(search)),
        Some(search) if is_same(verb, b"end") => Ok(Command::Request(Request::Close(search))),
        _ => Err(Refusal::Command),
    }
}

/// The command of a verb and two words.
fn read_with_two(verb: &[u8], first: &[u8], second: &[u8]) -> Result<Command, Refusal>
    ensures { Reads (form_in (forms_with (first.now ∷ second.now ∷ [])) verb.now) result }
{
    if is_same(verb, b"ask") {
        Ok(Command::Request(Request::Seek(Query::Ask(Role::read(first)?, Entity::read(second)?))))
    } else if is_same(verb, b"proof") {
        let Some(search) = number(first) else {
            return Err(Refusal::Command);
        };
        Ok(Command::Request(Request::Proof(search, Entity::read(second)?)))
    } else {
        Err(Refusal::Command)
    }
}

/// The credential that the text spells.
fn credential_of(alloc: Global, text: &[u8]) -> Result<Credential, Refusal>
    ensures spelled { IfOk result (λ c. Spells text.now c × (length text.now ≤ 4096)) }
    ensures refused { IfErr result (λ why.
        ((f : CredFault) × (credential.refusal text.now ≡ Some f) × (why ≡ Refusal.Credential f))
        ⊎ ((credential.refusal text.now ≡ None) × (why ≡ Refusal.Memory))) }
{
    match read_credential(alloc, text) {
        Ok(credential) => Ok(credential),
        Err(CredFault::Memory) => Err(Refusal::Memory),
        Err(fault) => Err(Refusal::Credential(fault)),
    }
}
