//! Rosters: the tenants that an input begins with.
ghost use Rattle.std.specs.Prelude.{◌≡◌, ◌≢◌, ◌↔◌, ◌⊎◌, [], ◌∷◌, ◌++◌, List, None, Some, Ok, Err, map, get_or};
ghost use Rattle.std.specs.Prelude.{IsTrue, IfOk, IfErr, OnOk, IfSome, IfNone};
ghost use Rattle.std.specs.{Io.KnownBytes.Appends, List.list_any, List.IsDistinct};
ghost use Rattle.{names.specs.Name.IsName, names.specs.Name.is_same, quotas.specs.Quota.Quota, hall.specs.Hall.new_hall};
ghost use Rattle.service.specs.{Line.Line, Line.commands_of, LineReader.IfKnown, Words.words, Words.number_of, Written.OpensWith};
ghost use Rattle.service.specs.Roster as roster;
ghost use Rattle.service.specs.Roster.{IsLimits, IsRow, IsRoster, IsTenant, names_of, tenant_of, HasRoster, ReadsRoster};

use crate::faults::ScriptFault;
use crate::lines::{LineReader, NextLine};
use crate::words::{is_same, is_word, next_word, number};
use crate::writing::{WriteFault, write_reply};
use hall::{Fault, Hall};
use names::Entity;
use names::texts::is_blank;
use pool::{Authority, Desk, Naming, Unnamed};
use quotas::Limits;
use std::alloc::{AllocError, Global};
use std::io::{Read, Write};
use std::marker::Model;

/// The most tenants of a roster, and the most bytes of a tenant's word.
const MOST_TENANTS: usize = 1_000;

const MOST_WORD: usize = 64;

/// Who may speak: 1 to 1,000 tenants, each with a name of its own, a word and its limits.
#[derive(Drop)]
pub struct Roster {
    rows: Vec<RosterLine>,
}

/// One tenant of a roster: its name, the word by which it is known, and its limits.
#[derive(Drop)]
struct RosterLine {
    name: Entity,
    word: Vec<u8>,
    limits: Limits,
}

impl Model for RosterLine {
    ghost use Rattle.service.specs.Roster as roster;

    ghost Value = { roster.RosterLine };

    ghost view = { λ r. record { name = r.name; word = r.word.items; limits = r.limits } };
}

impl Model for Roster {
    ghost use Rattle.std.specs.Prelude.{List};
    ghost use Rattle.service.specs.Roster as roster;

    ghost Value = { List roster.RosterLine };

    ghost view = { λ r. r.rows.items };

    ghost invariant = { λ r. roster.IsRoster r.rows.items };
}

impl Roster {
    /// The roster that the lines begin with, one tenant a line, up to the line `begin`. What follows a faulty one isn't read.
    pub fn read<R: Read + Drop>(
        alloc: Global,
        lines: &mut LineReader<R>,
    ) -> Result<Roster, ScriptFault>
        ensures roster { IfKnown lines.old (λ commands. ReadsRoster commands result lines.new) }
        ensures reads_alone { IfErr result (λ why. why ≢ ScriptFault.Write) }
    {
        let mut rows = Vec::new(alloc);
        for _ in 0..u64::MAX {
            match lines.next() {
                NextLine::Text(text) if is_blank(text) => {}
                NextLine::Text(text) if !rows.is_empty() && is_word(text, b"begin") => return Ok(
                    Roster { rows },
                ),
                NextLine::Text(text) => add_row(&mut rows, text)?,
                NextLine::Fault => return Err(ScriptFault::Read),
                _ => return Err(ScriptFault::Roster),
            }
        }
        Err(ScriptFault::Read)
    }

    /// Whether a tenant has this name and this word. By its code it goes over each byte of all of them, whatever is asked.
    pub fn check(&self, name: &[u8], word: &[u8]) -> bool
        ensures tenant { IsTrue result ↔ IsTenant self.now name.now word.now }
        ensures name { IsTrue result → IsName name.now }
    {
        let mut is_known = false;
        for row in &self.rows {
            is_known |= is_text(row.name.bytes(), name) & is_text(&row.word, word);
        }
        is_known
    }

    /// The hall of the roster's tenants, who have done nothing.
    pub fn hall(&self, alloc: Global) -> Result<Hall, Fault>
        ensures hall { IfOk result (λ h. h ≡ new_hall (map tenant_of self.now)) }
        ensures only_memory { IfErr result (λ f. f ≡ Fault.Memory) }
    {
        Hall::make(alloc, self.tenants(alloc)?)
    }

    /// A desk of the roster's tenants, who have done nothing, and the authority over it.
    #[tactic(auto, using(crate::proofs::TenantLemmas::names_of_tenants))]
    pub fn desk<L: Naming>(
        &self,
        alloc: Global,
        unnamed: Unnamed,
    ) -> Result<(Desk<L>, Authority<L>), Fault>
        requires roster { map tenant_of self.now ≡ L.roster }
        requires named { unnamed ≡ record { ledger = L.name; parts = L.parts; table = L.table; letters = L.letters; rights = L.rights } }
        ensures tenants { IfOk result (λ made. made.0 ≡ names_of self.now) }
        ensures only_memory { IfErr result (λ f. f ≡ Fault.Memory) }
    {
        Desk::make(alloc, self.tenants(alloc)?, unnamed)
    }

    /// The tenants' names and limits, in order.
    fn tenants(&self, alloc: Global) -> Result<Vec<(Entity, Limits)>, AllocError>
        ensures items { IfOk result (λ tenants. tenants.items ≡ map tenant_of self.now) }
        ensures distinct { IsDistinct is_same (map (λ row. row.0) (map tenant_of self.now)) }
    {
        let mut tenants = Vec::new(alloc);
        for row in &self.rows {
            tenants.push((row.name, row.limits))?;
        }
        Ok(tenants)
    }
}

/// Adds the tenant of a line to those that stand before.
fn add_row(rows: &mut Vec<RosterLine>, text: &[u8]) -> Result<(), ScriptFault>
    ensures added { OnOk result ((row : roster.RosterLine) × IsRow text.now row × (rows.new.items ≡ rows.old.items ++ row ∷ [])
        × (IsDistinct is_same (names_of rows.old.items) → IsRoster rows.new.items)) }
    ensures none { result ≡ Err ScriptFault.Roster → (row : roster.RosterLine) (more : List roster.RosterLine) → IsRow text.now row
        → IsRoster (rows.old.items ++ row ∷ more) → ⊥ }
    ensures fault { IfErr result (λ why. (why ≡ ScriptFault.Roster) ⊎ (why ≡ ScriptFault.Memory)) }
{
    let Some(parts) = read_row(text) else {
        return Err(ScriptFault::Roster);
    };
    let (name, word, limits) = parts;
    if rows.len() >= MOST_TENANTS || is_named(rows, &name) {
        return Err(ScriptFault::Roster);
    }
    let word = Vec::from_slice(*rows.allocator(), word)?;
    let row = RosterLine { name, word, limits };
    rows.push(row).or(Err(ScriptFault::Memory))
}

/// Whether a tenant has this name.
fn is_named(rows: &[RosterLine], name: &Entity) -> bool
    ensures { result ≡ list_any (λ row. is_same name.now row.name) rows.now }
{
    rows.iter().any(|row| *name == row.name)
}

/// Whether what a roster has is this text. Each byte that it has is compared, also behind one that differs.
fn is_text(kept: &[u8], said: &[u8]) -> bool
    ensures { IsTrue result ↔ (kept.now ≡ said.now) }
{
    let mut is_same = kept.len() == said.len();
    for (place, byte) in kept.iter().enumerate() {
        is_same &= said.get(place) == Some(byte);
    }
    is_same
}

/// The name, the word and the limits of a tenant's line.
fn read_row(text: &[u8]) -> Option<(Entity, &[u8], Limits)>
    ensures some { IfSome result (λ r. IsRow text.now (record { name = r.0; word = r.1.now; limits = r.2 })) }
    ensures none { IfNone result ((row : roster.RosterLine) → IsRow text.now row → ⊥) }
{
    if let Some((first, rest)) = next_word(text)
        && is_same(first, b"tenant")
        && let Some((name, rest)) = next_word(rest)
        && let Some((word, rest)) = next_word(rest)
        && word.len() <= MOST_WORD
        && let Ok(name) = Entity::read(name)
        && let Some(limits) = read_limits(rest)
    {
        return Some((name, word, limits));
    }
    None
}

/// The limits that the text gives: the usual ones where it has no word, and else those of six numbers.
fn read_limits(text: &[u8]) -> Option<Limits>
    ensures some { IfSome result (IsLimits (words text.now)) }
    ensures none { IfNone result ((q : Quota) → IsLimits (words text.now) q → ⊥) }
{
    if next_word(text).is_none() {
        return Some(Limits::usual());
    }
    if let Some((creds, rest)) = next_number(text)
        && let Some((grants, rest)) = next_number(rest)
        && let Some((searches, rest)) = next_number(rest)
        && let Some((changes, rest)) = next_number(rest)
        && let Some((opens, rest)) = next_number(rest)
        && let Some((work, rest)) = next_number(rest)
        && next_word(rest).is_none()
    {
        return Limits::make(creds, grants, searches, changes, opens, work);
    }
    None
}

/// The number that the text begins with, and what stands after it.
fn next_number(text: &[u8]) -> Option<(u64, &[u8])>
    ensures some { IfSome result (λ parts. map number_of (words text.now) ≡ Some parts.0 ∷ map number_of (words parts.1.now)) }
    ensures none { IfNone result (get_or (map number_of (words text.now)) 0 None ≡ None) }
{
    let (word, rest) = next_word(text)?;
    Some((number(word)?, rest))
}

/// The roster that an input begins with. A faulty one is answered at once by one line. What was read ahead of it is lost.
pub fn read_roster<R: Read + Drop, W: Write>(
    alloc: Global,
    reader: R,
    writer: &mut W,
) -> Result<Roster, ScriptFault>
    ensures roster { IfSome (R.remaining reader)
        (λ input. OpensWith (λ rows. (rest : List Line) × HasRoster (commands_of input) rows rest) (commands_of input) result
        (Appends (W.contents writer.old) (W.contents writer.new))) }
    ensures silent { OnOk result (W.contents writer.new ≡ W.contents writer.old) }
{
    let mut lines = LineReader::make(alloc, reader)?;
    take_roster(alloc, &mut lines, writer)
}

/// The roster that the lines begin with. A faulty one is answered at once by one line.
pub(crate) fn take_roster<R: Read + Drop, W: Write>(
    alloc: Global,
    lines: &mut LineReader<R>,
    writer: &mut W,
) -> Result<Roster, ScriptFault>
    ensures roster { IfKnown lines.old (λ commands. OpensWith (λ rows. ReadsRoster commands (Ok rows) lines.new) commands result
        (Appends (W.contents writer.old) (W.contents writer.new))) }
    ensures silent { OnOk result (W.contents writer.new ≡ W.contents writer.old) }
{
    match Roster::read(alloc, lines) {
        Err(ScriptFault::Roster) => match write_reply(writer, b"?: error 63 roster\n") {
            Ok(()) => Err(ScriptFault::Roster),
            Err(WriteFault) => Err(ScriptFault::Write),
        },
        read => read,
    }
}

#[cfg(test)]
mod tests;
