ghost use Rattle.std.specs.Prelude.{◌≡◌, ◌+◌, ◌<◌, ◌≤◌, ◌∷◌, ◌++◌, [], None, Some, min, IfErr, OnErr, OnOk, IfOk, IfSome, Ok, Err, MatchResult, MatchOption, List, ℕ, length, take};
ghost use Rattle.std.specs.Io.KnownBytes.{Consumes, IsAtEnd, Keeps};
ghost use Rattle.std.specs.Option.{option_map};
ghost use Rattle.std.specs.Str.Lines.{strip_carriage_return};
ghost use Rattle.counted_io.specs.Limits.{GivesOut, IsRead};
ghost use Rattle.counted_io.specs.declared.TheConstants.{MOST_CALLS};
ghost use Rattle.text_lines.specs.Lines.{lines_of, line_feeds, lines_after};
ghost use Rattle.text_lines.specs.Numbers.{capped};
ghost use Rattle.grfile.specs.Outcome.{IsReading, FromText, IsOfLine, Takes, next_line};
ghost use Rattle.grfile.specs.Grammar.{listing_after};
ghost use Rattle.grfile.specs.Progress.{listing_of, listing_from, told_from};
ghost use Rattle.grfile.specs.Taken.{CountsLines, HasTaken, IsAtEndOf, IsLineReached, IsReadTo, StopsWith, TakesLine, taken_of, told_with};
ghost use Rattle.grfile.specs.ToTheEnd.{ReadsToEnd};
ghost use Rattle.grfile.specs.declared.error.GrErrorKind.TheVariants.{OutOfMemory, Read};

use crate::error::{GrError, GrErrorKind};
use crate::form::Form;
use crate::listing::{Listed, ListingProgress, end, take_line, take_plain};
use counted_io::{ReadCalls, StepRead};
use std::alloc::Global;
use text_lines::{first_line, without_return};

/// What is kept of a text that comes in pieces.
#[derive(Drop)]
pub(crate) struct Pieces<E> {
    /// What the lines say that have ended.
    pub(crate) progress: ListingProgress<E>,
    /// The bytes of the line that hasn't ended.
    pub(crate) begun: Vec<u8>,
    /// The refusal that was returned, if there was one.
    pub(crate) failed: Option<GrError>,
}

impl<E> Pieces<E> {
    /// Nothing yet. Takes no memory.
    pub(crate) fn new(alloc: Global) -> Pieces<E>
        ensures { taken_of result ≡ record { line = 0; listing = None; begun = []; failed = None } }
    {
        Pieces {
            progress: ListingProgress {
                line: 0,
                listed: None,
            },
            begun: Vec::new(alloc),
            failed: None,
        }
    }
}

/// Takes the next piece of a text. After a refusal each further call returns it again.
pub(crate) fn feed<F: Form>(
    pieces: &mut Pieces<F::Entry>,
    form: F,
    piece: &[u8],
) -> Result<(), GrError>
    ensures takes { Takes result (λ rest. told_with (F.grammar form) (taken_of pieces.old) (piece.now ++ rest)) (told_with (F.grammar form) (taken_of pieces.new)) }
    ensures lines { pieces.old.failed ≡ None → CountsLines result pieces.old.progress.line (line_feeds piece.now) pieces.new.progress.line }
    ensures before { pieces.old.failed ≡ None → IfErr result (IsReadTo (F.grammar form) (λ rest. told_with (F.grammar form) (taken_of pieces.old) (piece.now ++ rest))) }
    ensures stays { OnOk result (pieces.new.failed ≡ pieces.old.failed) }
    ensures refused { IfErr result (λ e. pieces.new.failed ≡ Some e) }
    ensures again { IfSome pieces.old.failed (λ e. result ≡ Err e) }
{
    if let Some(refusal) = pieces.failed {
        return Err(refusal);
    }
    let answer = take(&mut pieces.progress, &mut pieces.begun, form, piece);
    if let Err(refusal) = answer {
        pieces.failed = Some(refusal);
    }
    answer
}

// Takes a piece after the bytes of a line that has begun.
fn take<F: Form>(
    progress: &mut ListingProgress<F::Entry>,
    begun: &mut Vec<u8>,
    form: F,
    piece: &[u8],
) -> Result<(), GrError>
    ensures takes { Takes result (λ rest. told_from (F.grammar form) progress.old (lines_after begun.old.items (piece.now ++ rest))) (λ rest. told_from (F.grammar form) progress.new (lines_after begun.new.items rest)) }
    ensures lines { CountsLines result progress.old.line (line_feeds piece.now) progress.new.line }
    ensures before { IfErr result (IsReadTo (F.grammar form) (λ rest. told_from (F.grammar form) progress.old (lines_after begun.old.items (piece.now ++ rest)))) }
{
    let alloc = *begun.allocator();
    let Some(cut) = first_line(piece) else {
        return keep(begun, progress.line, piece);
    };
    end_line(progress, begun, form, cut.line)?;
    let rest = take_lines(alloc, progress, form, cut.rest)?;
    keep(begun, progress.line, rest)
}

// Keeps bytes of the line after this one.
fn keep(begun: &mut Vec<u8>, line: u64, bytes: &[u8]) -> Result<(), GrError>
    ensures kept { OnOk result (begun.new.items ≡ begun.old.items ++ bytes.now) }
    ensures refused { IfErr result (λ e. e ≡ record { kind = OutOfMemory; line = next_line line }) }
{
    match begun.extend_from_slice(bytes) {
        Ok(()) => Ok(()),
        Err(_) => Err(GrErrorKind::OutOfMemory.at(line.saturating_add(1))),
    }
}

// Takes the line that has begun, now that its last bytes have come.
fn end_line<F: Form>(
    progress: &mut ListingProgress<F::Entry>,
    begun: &mut Vec<u8>,
    form: F,
    last: &[u8],
) -> Result<(), GrError>
    ensures takes { Takes result (λ rest. told_from (F.grammar form) progress.old (strip_carriage_return (begun.old.items ++ last.now) ∷ rest)) (told_from (F.grammar form) progress.new) }
    ensures empty { OnOk result (begun.new.items ≡ []) }
    ensures lines { CountsLines result progress.old.line 1 progress.new.line }
    ensures at { IfErr result (λ e. e.line ≡ next_line progress.old.line) }
{
    let alloc = *begun.allocator();
    if begun.is_empty() {
        return take_line(alloc, progress, form, without_return(last));
    }
    keep(begun, progress.line, last)?;
    take_line(alloc, progress, form, without_return(begun.as_slice()))?;
    begun.clear();
    Ok(())
}

// Takes the first line that ends in a text, and returns what follows it, or `None` where no line ends.
fn take_first<'a, F: Form>(
    alloc: Global,
    progress: &mut ListingProgress<F::Entry>,
    form: F,
    text: &'a [u8],
) -> Result<Option<&'a [u8]>, GrError>
    ensures takes { IfOk result (λ o. IfSome o (λ rest. TakesLine (F.grammar form) progress.old.line progress.new.line (option_map listing_of progress.old.listed) (option_map listing_of progress.new.listed) text.now rest.now)) }
    ensures stays { result ≡ Ok None → (line_feeds text.now ≡ 0) × (progress.new.line ≡ progress.old.line) × (option_map listing_of progress.new.listed ≡ option_map listing_of progress.old.listed) }
    ensures fault { IfErr result (λ e. (more : List ℕ) → FromText e.kind (told_from (F.grammar form) progress.old (lines_after [] (text.now ++ more)) ≡ Err e)) }
    ensures refused { IfErr result (λ e. (progress.new.line ≡ progress.old.line) × IsOfLine (next_line progress.old.line) e) }
{
    let number = progress.line.saturating_add(1);
    if let Some(rest) = take_plain(&mut progress.listed, form, number, text)? {
        progress.line = number;
        return Ok(Some(rest));
    }
    let Some(cut) = first_line(text) else {
        return Ok(None);
    };
    take_line(alloc, progress, form, without_return(cut.line))?;
    Ok(Some(cut.rest))
}

// Takes the lines that end in a text, and returns what follows the last of them.
fn take_lines<'a, F: Form>(
    alloc: Global,
    progress: &mut ListingProgress<F::Entry>,
    form: F,
    text: &'a [u8],
) -> Result<&'a [u8], GrError>
    ensures takes { MatchResult result (λ last. (rest : List ℕ) → told_from (F.grammar form) progress.new (lines_after last.now rest) ≡ told_from (F.grammar form) progress.old (lines_after [] (text.now ++ rest)))
        (λ e. (rest : List ℕ) → FromText e.kind (told_from (F.grammar form) progress.old (lines_after [] (text.now ++ rest)) ≡ Err e)) }
    ensures lines { MatchResult result (λ _. capped progress.new.line ≡ capped (progress.old.line + line_feeds text.now)) (IsLineReached progress.old.line (progress.old.line + line_feeds text.now) progress.new.line) }
    ensures before { IfErr result (IsReadTo (F.grammar form) (λ rest. told_from (F.grammar form) progress.old (lines_after [] (text.now ++ rest)))) }
{
    let mut rest = text;
    while let Some(more) = take_first(alloc, progress, form, rest)? {
        rest = more;
    }
    Ok(rest)
}

/// What the whole text lists, or its first fault.
pub(crate) fn finish<F: Form>(
    pieces: Pieces<F::Entry>,
    form: F,
) -> Result<Listed<F::Entry>, GrError>
    ensures told { IsReading listing_of result (told_with (F.grammar form) (taken_of pieces) []) }
    ensures again { IfSome pieces.failed (λ e. result ≡ Err e) }
    ensures refused { pieces.failed ≡ None → IfErr result (IsAtEndOf pieces.progress.line) }
{
    let Pieces {
        mut progress,
        begun,
        failed,
    } = pieces;
    if let Some(refusal) = failed {
        return Err(refusal);
    }
    if begun.is_empty() {
        return end(progress);
    }
    let line = without_return(begun.as_slice());
    take_line(*begun.allocator(), &mut progress, form, line)?;
    end(progress)
}

/// What the text lists that a reader gives to its end in this many calls, or its first fault.
pub(crate) fn read_listing<F: Form, R: StepRead>(
    alloc: Global,
    form: F,
    reader: &mut R,
    calls: u64,
) -> Result<Listed<F::Entry>, GrError>
    ensures told { IfSome (R.remaining reader.old) (λ text. IsReading listing_of result (listing_after (F.grammar form) 0 (lines_of text))) }
    ensures listed { IfOk result (λ listed. (text : List ℕ) × (listing_after (F.grammar form) 0 (lines_of text) ≡ Ok (listing_of listed))) }
    ensures reads { ReadsToEnd R.step R.remaining (min calls MOST_CALLS) reader.old reader.new result }
    ensures before { IfErr result (StopsWith (λ taken. IsReadTo (F.grammar form) (λ rest. listing_after (F.grammar form) 0 (lines_of (taken ++ rest)))) (R.remaining reader.old) (R.remaining reader.new)) }
{
    let mut pieces = Pieces::new(alloc);
    feed_all(&mut pieces, form, reader, calls)?;
    finish(pieces, form)
}

// Takes all that a reader gives in this many calls, in pieces of 64 KiB at most.
fn feed_all<F: Form, R: StepRead>(
    pieces: &mut Pieces<F::Entry>,
    form: F,
    reader: &mut R,
    calls: u64,
) -> Result<(), GrError>
    requires fresh { pieces.old.failed ≡ None }
    requires begins { pieces.old.progress.line ≡ 0 }
    ensures ok { OnOk result (HasTaken (told_with (F.grammar form) (taken_of pieces.old)) (told_with (F.grammar form) (taken_of pieces.new)) pieces.new.progress.line (R.remaining reader.old) (R.remaining reader.new)) }
    ensures stays { OnOk result (pieces.new.failed ≡ None) }
    ensures err { IfErr result (λ e. IfSome (R.remaining reader.old) (λ text. FromText e.kind (told_with (F.grammar form) (taken_of pieces.old) text ≡ Err e))) }
    ensures reads { ReadsToEnd R.step R.remaining (min calls MOST_CALLS) reader.old reader.new result }
    ensures before { IfErr result (StopsWith (λ taken. IsReadTo (F.grammar form) (λ rest. told_with (F.grammar form) (taken_of pieces.old) (taken ++ rest))) (R.remaining reader.old) (R.remaining reader.new)) }
{
    let mut calls = ReadCalls::new(calls);
    let mut piece = [0u8; 65536];
    while let Some(count) = read_piece(&mut calls, reader, &mut piece, pieces.progress.line)? {
        feed(pieces, form, &piece[..count])?;
    }
    Ok(())
}

// Reads the next bytes into the piece, and returns how many they are, or `None` at the end. This many lines have ended.
fn read_piece<R: StepRead>(
    calls: &mut ReadCalls,
    reader: &mut R,
    piece: &mut [u8],
    line: u64,
) -> Result<Option<usize>, GrError>
    requires room { 0 < length piece.old }
    ensures bytes { IfOk result (λ o. MatchOption o (IsAtEnd (R.remaining reader.new) × Keeps (R.remaining reader.old) (R.remaining reader.new)) (λ n. (n ≤ length piece.new) × Consumes (R.remaining reader.old) (R.remaining reader.new) (take n piece.new))) }
    ensures counted { OnOk result (calls.new.left < calls.old.left) }
    ensures refused { IfErr result (λ e. (e ≡ record { kind = Read; line = next_line line }) × Keeps (R.remaining reader.old) (R.remaining reader.new)) }
    ensures calls { OnOk result (IsRead R.step calls.old.left calls.new.left reader.old reader.new) }
    ensures gave_out { OnErr result (GivesOut R.step calls.old.left reader.old reader.new) }
{
    match calls.read(reader, piece) {
        Ok(0) => Ok(None),
        Ok(count) => Ok(Some(count)),
        Err(_) => Err(GrErrorKind::Read.at(line.saturating_add(1))),
    }
}
