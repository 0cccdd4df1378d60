//! Help, the version, and mistakes in arguments.
ghost use Rattle.std.specs.Prelude.{◌≡◌, ◌≢◌, ◌≤◌, ◌<◌, ◌⊎◌, true, false};
ghost use Rattle.clap.specs.Words.{kind_of};
ghost use Rattle.commands.specs.Grammar.{is_mistake, is_request};

use crate::status::{BAD_WORDS, FAILURE, SUCCESS, TrackedAlloc, report_bad_words, write_text};
use clap::Error;
use clap::error::ErrorKind;
use plain::Sink;
use std::alloc::{AllocError, Global};
use std::convert::AsStr;

/// Whether the arguments request help or the version.
fn is_request(kind: ErrorKind) -> bool
    ensures { result ≡ is_request kind }
{
    matches!(kind, ErrorKind::DisplayHelp | ErrorKind::DisplayVersion)
}

/// Whether the arguments are bad.
fn is_mistake(kind: ErrorKind) -> bool
    ensures { result ≡ is_mistake kind }
{
    !is_request(kind) && kind != ErrorKind::OutOfMemory
}

/// The argument that a message calls unexpected.
fn unexpected_in(message: &str) -> Option<&str> {
    let rest = message.strip_prefix("error: unexpected argument '")?;
    match rest.split_once("' found") {
        Some((word, _)) => Some(word),
        None => None,
    }
}

/// Appends a tip about an unexpected argument. One that is no option is often the name of a file, but a race reads no
/// input; and `-n` is `--namespace` of kubectl.
fn put_tip(command: &str, word: &str, text: &mut String) -> Result<(), AllocError> {
    if word.starts_with("-n") && command == "plan" {
        return text.push_str("The option for a namespace is --namespace NS\n");
    }
    if word.starts_with('-') || command == "race" {
        return Ok(());
    }
    write!(
        text,
        "Input comes on standard input: stsctl {command} < {word}\n"
    )
}

/// The message, and a tip if there is one.
fn with_tip<S: AsStr>(alloc: Global, words: &[S], error: &Error) -> Result<String, AllocError> {
    let message = format!(in alloc; "{error}")?;
    let mut text = message.clone()?;
    if error.kind() != ErrorKind::UnknownArgument {
        return Ok(text);
    }
    match (words.get(1), unexpected_in(message.as_str())) {
        (Some(command), Some(word)) => put_tip(command.as_str(), word, &mut text)?,
        _ => {}
    }
    Ok(text)
}

/// Prints why nothing is done: help and the version to `writer`, a mistake in the arguments to `faults`.
pub(crate) fn explain<S: AsStr, W: Sink, F: Sink>(
    heap: &mut TrackedAlloc,
    words: &[S],
    error: &Error,
    writer: &mut W,
    faults: &mut F,
) -> u8
    ensures status { result ≤ BAD_WORDS }
    ensures success { result ≡ SUCCESS → is_request (kind_of error.now) ≡ true }
    ensures refused { result ≡ BAD_WORDS → is_mistake (kind_of error.now) ≡ true }
    ensures mistake { is_request (kind_of error.now) ≡ false → (result ≡ BAD_WORDS) ⊎ (heap.new.refused ≡ true) }
    ensures cause { result ≡ FAILURE → (W.failures writer.old < W.failures writer.new) ⊎ (heap.new.refused ≡ true) }
    ensures memory { result ≢ FAILURE → heap.new.refused ≡ heap.old.refused }
    ensures spared { W.failures writer.old < W.failures writer.new → heap.new.refused ≡ heap.old.refused }
    ensures quiet { result ≢ BAD_WORDS → faults.new ≡ faults.old }
    ensures untouched { is_request (kind_of error.now) ≡ false → writer.new ≡ writer.old }
{
    let kind = error.kind();
    match with_tip(heap.alloc, words, error) {
        Ok(text) if is_request(kind) => write_text(writer, text.as_bytes()),
        Ok(text) if is_mistake(kind) => report_bad_words(faults, text.as_bytes()),
        _ => {
            heap.refused = true;
            FAILURE
        }
    }
}
