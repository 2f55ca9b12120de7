ghost use Rattle.std.specs.Prelude.{◌≡◌, ◌≢◌, ◌∷◌, [], ℕ, Some, IfErr, IfOk, MatchOption, MatchResult};
ghost use Rattle.std.specs.Option.{option_map};
ghost use Rattle.grfile.specs.Outcome.{IsReading, Takes, IsOfLine, next_line};
ghost use Rattle.grfile.specs.Progress.{listing_of, listing_from, entry_then, told_from};
ghost use Rattle.grfile.specs.Grammar.{Grammar};
ghost use Rattle.grfile.specs.Taken.{TakesLine};
ghost use Rattle.grfile.specs.declared.error.GrErrorKind.TheVariants.{OutOfMemory, Read};

use crate::error::{GrError, GrErrorKind};
use crate::form::{Form, Size};
use crate::kind::{LineKind, kind_of};
use std::alloc::Global;
use text_lines::{Fields, fields_of};

/// What a problem line says, and the entries after it.
#[derive(Drop)]
pub(crate) struct Listed<E> {
    /// What the problem line says.
    pub(crate) size: Size,
    /// The entries so far, in the order of their lines.
    pub(crate) entries: Vec<E>,
}

// Takes the line of an entry with this number, by its fields after the first.
fn take_entry<F: Form>(
    listed: &mut Listed<F::Entry>,
    form: F,
    line: u64,
    fields: Fields<'_>,
) -> Result<(), GrError>
    ensures takes { Takes result (λ rest. entry_then (F.grammar form) line (listing_of listed.old) fields.entry rest) (λ rest. listing_from (F.grammar form) line (Some (listing_of listed.new)) rest) }
    ensures refused { IfErr result (IsOfLine line) }
{
    if listed.entries.len() >= listed.size.entries as usize {
        return Err(GrErrorKind::ArcCount.at(line));
    }
    let entry = form.entry(listed.size, line, fields)?;
    match listed.entries.push(entry) {
        Ok(()) => Ok(()),
        Err(_) => Err(GrErrorKind::OutOfMemory.at(line)),
    }
}

/// How far the lines of a text have been read.
#[derive(Drop)]
pub(crate) struct ListingProgress<E> {
    /// The number of the line that was read last, 0 before the first.
    pub(crate) line: u64,
    /// What the lines have, once the problem line has come.
    pub(crate) listed: Option<Listed<E>>,
}

/// Takes the next line of a text, which has neither its line feed nor the carriage return at its end.
pub(crate) fn take_line<F: Form>(
    alloc: Global,
    progress: &mut ListingProgress<F::Entry>,
    form: F,
    line: &[u8],
) -> Result<(), GrError>
    ensures takes { Takes result (λ rest. told_from (F.grammar form) progress.old (line.now ∷ rest)) (told_from (F.grammar form) progress.new) }
    ensures line { MatchResult result (λ _. progress.new.line ≡ next_line progress.old.line) (λ e. (progress.new.line ≡ progress.old.line) × IsOfLine (next_line progress.old.line) e) }
{
    let number = progress.line.saturating_add(1);
    take_numbered(alloc, &mut progress.listed, form, number, line)?;
    progress.line = number;
    Ok(())
}

// Takes the line with this number.
fn take_numbered<F: Form>(
    alloc: Global,
    listed: &mut Option<Listed<F::Entry>>,
    form: F,
    number: u64,
    line: &[u8],
) -> Result<(), GrError>
    ensures takes { (n : ℕ) → number ≡ next_line n → Takes result (λ rest. listing_from (F.grammar form) n (option_map listing_of listed.old) (line.now ∷ rest)) (λ rest. listing_from (F.grammar form) number (option_map listing_of listed.new) rest) }
    ensures refused { IfErr result (IsOfLine number) }
{
    let mut fields = fields_of(line);
    let Some(first) = fields.next_field() else {
        return Ok(());
    };
    match kind_of(form.letter(), first) {
        LineKind::Skipped => Ok(()),
        LineKind::Unknown => Err(GrErrorKind::UnknownLine.at(number)),
        LineKind::Problem => {
            if listed.is_some() {
                return Err(GrErrorKind::SecondProblemLine.at(number));
            }
            let size = form.size(number, fields)?;
            let entries = Vec::new(alloc);
            *listed = Some(Listed { size, entries });
            Ok(())
        }
        LineKind::Entry => match listed {
            Some(listed) => take_entry(listed, form, number, fields),
            None => Err(GrErrorKind::NoProblemLine.at(number)),
        },
    }
}

/// Takes the line with this number, the first of a text, where it is a plain one of an entry and there is room for it,
/// and returns what follows it. Else nothing is taken.
pub(crate) fn take_plain<'a, F: Form>(
    listed: &mut Option<Listed<F::Entry>>,
    form: F,
    number: u64,
    text: &'a [u8],
) -> Result<Option<&'a [u8]>, GrError>
    ensures takes { (n : ℕ) → number ≡ next_line n → IfOk result (λ o. MatchOption o (option_map listing_of listed.new ≡ option_map listing_of listed.old) (λ rest. TakesLine (F.grammar form) n number (option_map listing_of listed.old) (option_map listing_of listed.new) text.now rest.now)) }
    ensures refused { IfErr result (λ e. e ≡ record { kind = OutOfMemory; line = number }) }
{
    match listed {
        Some(listed) => take_plain_entry(listed, form, number, text),
        None => Ok(None),
    }
}

// The same, where a problem line has come.
fn take_plain_entry<'a, F: Form>(
    listed: &mut Listed<F::Entry>,
    form: F,
    number: u64,
    text: &'a [u8],
) -> Result<Option<&'a [u8]>, GrError>
    ensures takes { (n : ℕ) → number ≡ next_line n → IfOk result (λ o. MatchOption o (listing_of listed.new ≡ listing_of listed.old) (λ rest. TakesLine (F.grammar form) n number (Some (listing_of listed.old)) (Some (listing_of listed.new)) text.now rest.now)) }
    ensures refused { IfErr result (λ e. e ≡ record { kind = OutOfMemory; line = number }) }
{
    if listed.entries.len() >= listed.size.entries as usize {
        return Ok(None);
    }
    let Some(found) = form.plain(listed.size, number, text) else {
        return Ok(None);
    };
    match listed.entries.push(found.entry) {
        Ok(()) => Ok(Some(found.rest)),
        Err(_) => Err(GrErrorKind::OutOfMemory.at(number)),
    }
}

/// What a text says that ends with this line.
pub(crate) fn end<E: Drop>(progress: ListingProgress<E>) -> Result<Listed<E>, GrError>
    ensures told { (grammar : Grammar E) → IsReading listing_of result (told_from grammar progress []) }
    ensures refused { IfErr result (λ e. (e.kind ≢ Read) × (e.kind ≢ OutOfMemory)) }
{
    let line = progress.line;
    let listed = progress.listed.ok_or(GrErrorKind::NoProblemLine.at(line))?;
    whole(listed, line)
}

// What was listed, where all of its entries have come by the end of the text.
fn whole<E: Drop>(listed: Listed<E>, line: u64) -> Result<Listed<E>, GrError>
    ensures told { (grammar : Grammar E) → IsReading listing_of result (listing_from grammar line (Some (listing_of listed)) []) }
    ensures refused { IfErr result (λ e. (e.kind ≢ Read) × (e.kind ≢ OutOfMemory)) }
{
    if listed.entries.len() < listed.size.entries as usize {
        return Err(GrErrorKind::ArcCount.at(line));
    }
    Ok(listed)
}
