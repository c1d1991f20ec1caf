//! A command is split into its words.
ghost use Rattle.std.specs.Prelude.{◌≡◌, ◌∷◌, ◌<◌, ◌==◌, ◌&&◌, ◌+◌, not, true, false, [], length, IfOk, IfSome, MatchOption};
ghost use Rattle.std.specs.List.{prefix_len};
ghost use Rattle.cb_compdb.specs.Pieces.{HasWords, HasOpenQuote, IsOpen, IsOpenSingle, IsOpenDouble, is_gap, is_plain, is_inner_byte};
ghost use Rattle.cb_compdb.specs.inner.Steps.{Leads, LeadsInside};

use crate::splitter::Splitter;
use cb_paths::{NoMemory, Texts};
use std::alloc::Global;

/// Whether a byte parts words: space, HT, LF and CR.
#[tactic(auto, unfolding(crate::specs::Pieces::is_gap))]
fn is_gap(byte: u8) -> bool
    ensures { result ≡ is_gap byte }
{
    byte == b' ' || byte == b'\t' || byte == b'\n' || byte == b'\r'
}

/// Whether a byte stands for itself outside quotes.
#[tactic(auto, unfolding(crate::specs::Pieces::is_plain))]
fn is_plain(byte: u8) -> bool
    ensures { result ≡ is_plain byte }
{
    !is_gap(byte) && byte != b'\\' && byte != b'\'' && byte != b'"'
}

/// Whether a byte stands for itself between double quotes.
fn is_inner(byte: u8) -> bool
    ensures { result ≡ is_inner_byte byte }
{
    byte != b'"' && byte != b'\\'
}

/// How many bytes at the front stand for themselves outside quotes.
fn plain_len(bytes: &[u8]) -> usize
    ensures { result ≡ prefix_len is_plain bytes.now }
{
    bytes.iter().take_while(|byte| is_plain(**byte)).count()
}

/// How many bytes at the front stand for themselves between double quotes.
fn inner_len(bytes: &[u8]) -> usize
    ensures { result ≡ prefix_len is_inner_byte bytes.now }
{
    bytes.iter().take_while(|byte| is_inner(**byte)).count()
}

/// How many bytes stand in front of the first single quote, if there is one.
fn single_len(bytes: &[u8]) -> usize
    ensures { result ≡ prefix_len (λ b. not (b == 39)) bytes.now }
{
    bytes.iter().take_while(|byte| **byte != b'\'').count()
}

/// Reads a piece in single quotes, behind the first of them, and answers what is left behind it; none where it has no
/// end.
fn single<'a>(splitter: &mut Splitter, bytes: &'a [u8]) -> Result<Option<&'a [u8]>, NoMemory>
    ensures leads { IfOk result
        (λ left. MatchOption left (IsOpenSingle (39 ∷ bytes.now))
        (λ left. Leads (39 ∷ bytes.now) splitter.old left.now splitter.new)) }
    ensures shorter { IfOk result (λ left. IfSome left (λ left. length left.now < length bytes.now)) }
{
    let (inside, behind) = bytes.split_at(single_len(bytes));
    match behind.split_first() {
        Some((_quote, left)) => {
            splitter.add(inside)?;
            Ok(Some(left))
        }
        None => Ok(None),
    }
}

/// Reads the byte behind a backslash between double quotes, and answers what is left behind it; none where there is
/// none.
fn escaped<'a>(splitter: &mut Splitter, bytes: &'a [u8]) -> Result<Option<&'a [u8]>, NoMemory>
    ensures leads { IfOk result
        (λ left. MatchOption left (bytes.now ≡ [])
        (λ left. LeadsInside (92 ∷ bytes.now) splitter.old left.now splitter.new)) }
    ensures shorter { IfOk result (λ left. IfSome left (λ left. length left.now < length bytes.now)) }
{
    match bytes.split_first() {
        Some((byte, left)) => {
            splitter.add(&[*byte])?;
            Ok(Some(left))
        }
        None => Ok(None),
    }
}

/// Reads bytes between double quotes, at least one, and answers what is left behind them; none where a backslash is the
/// last byte.
fn inner<'a>(
    splitter: &mut Splitter,
    bytes: &'a [u8],
    first: u8,
    behind: &'a [u8],
) -> Result<Option<&'a [u8]>, NoMemory>
    requires front { bytes.now ≡ first ∷ behind.now }
    requires inside { (first == 34) ≡ false }
    ensures leads { IfOk result
        (λ left. MatchOption left (bytes.now ≡ 92 ∷ [])
        (λ left. LeadsInside bytes.now splitter.old left.now splitter.new)) }
    ensures shorter { IfOk result (λ left. IfSome left (λ left. length left.now < length bytes.now)) }
{
    if first == b'\\' {
        return escaped(splitter, behind);
    }
    let (run, left) = bytes.split_at(inner_len(bytes));
    splitter.add(run)?;
    Ok(Some(left))
}

/// Reads a piece in double quotes, behind the first of them, and answers what is left behind it; none where it has no
/// end.
fn double<'a>(splitter: &mut Splitter, bytes: &'a [u8]) -> Result<Option<&'a [u8]>, NoMemory>
    ensures leads { IfOk result
        (λ left. MatchOption left (IsOpenDouble (34 ∷ bytes.now))
        (λ left. Leads (34 ∷ bytes.now) splitter.old left.now splitter.new)) }
    ensures shorter { IfOk result (λ left. IfSome left (λ left. length left.now < length bytes.now)) }
{
    splitter.add(&[])?;
    let mut left = bytes;
    'inside: while let Some((first, behind)) = left.split_first() {
        if *first == b'"' {
            return Ok(Some(behind));
        }
        match inner(splitter, left, *first, behind)? {
            Some(rest) => left = rest,
            None => return Ok(None),
        }
    }
    Ok(None)
}

/// Reads the byte behind a backslash outside quotes, or the backslash where it is the last byte, and answers what is
/// left behind it.
fn escape<'a>(splitter: &mut Splitter, bytes: &'a [u8]) -> Result<&'a [u8], NoMemory>
    ensures leads { IfOk result (λ left. Leads (92 ∷ bytes.now) splitter.old left.now splitter.new) }
    ensures shorter { IfOk result (λ left. length left.now < length bytes.now + 1) }
{
    match bytes.split_first() {
        Some((byte, left)) => {
            splitter.add(&[*byte])?;
            Ok(left)
        }
        None => {
            splitter.add(b"\\")?;
            Ok(bytes)
        }
    }
}

/// Reads bytes that stand for themselves outside quotes, at least one, and answers what is left behind them.
fn plain<'a>(
    splitter: &mut Splitter,
    bytes: &'a [u8],
    first: u8,
    behind: &[u8],
) -> Result<&'a [u8], NoMemory>
    requires front { bytes.now ≡ first ∷ behind.now }
    requires plain { is_plain first ≡ true }
    ensures leads { IfOk result (λ left. Leads bytes.now splitter.old left.now splitter.new) }
    ensures shorter { IfOk result (λ left. length left.now < length bytes.now) }
{
    let (run, left) = bytes.split_at(plain_len(bytes));
    splitter.add(run)?;
    Ok(left)
}

/// Reads what stands at the front: a gap, a piece in quotes, a byte behind a backslash, or all bytes that stand for
/// themselves. It answers what is left behind it; none where a quote has no end.
fn front<'a>(
    splitter: &mut Splitter,
    bytes: &'a [u8],
    first: u8,
    behind: &'a [u8],
) -> Result<Option<&'a [u8]>, NoMemory>
    requires { bytes.now ≡ first ∷ behind.now }
    ensures leads { IfOk result
        (λ left. MatchOption left (IsOpen bytes.now) (λ left. Leads bytes.now splitter.old left.now splitter.new)) }
    ensures shorter { IfOk result (λ left. IfSome left (λ left. length left.now < length bytes.now)) }
{
    if is_gap(first) {
        splitter.end()?;
        return Ok(Some(behind));
    }
    if first == b'\'' {
        return single(splitter, behind);
    }
    if first == b'"' {
        return double(splitter, behind);
    }
    if first == b'\\' {
        let left = escape(splitter, behind)?;
        return Ok(Some(left));
    }
    let left = plain(splitter, bytes, first, behind)?;
    Ok(Some(left))
}

/// The words of a command, or none where a quote has no end.
pub(crate) fn split(alloc: Global, command: &[u8]) -> Result<Option<Texts>, NoMemory>
    ensures { IfOk result (λ words. MatchOption words (HasOpenQuote command.now) (HasWords command.now)) }
{
    let mut splitter = Splitter::new(alloc);
    let mut left = command;
    'pieces: while let Some((first, behind)) = left.split_first() {
        match front(&mut splitter, left, *first, behind)? {
            Some(rest) => left = rest,
            None => return Ok(None),
        }
    }
    let words = splitter.into_words()?;
    Ok(Some(words))
}
