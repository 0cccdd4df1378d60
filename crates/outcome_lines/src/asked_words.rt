// Requests of callers in words.
ghost use Rattle.std.specs.Prelude.{◌≡◌, ◌++◌, codes, decimal, string_bytes, option_map, IfOk, OnOk};
ghost use Rattle.std.specs.Option.{option_copied};
ghost use Rattle.outcome_lines.specs.AskedWords.{all_words, ask_in, asked_words, request_of, sent_words, verb_words};
ghost use Rattle.outcome_lines.specs.ObjectWords.{lists_in};

use participants::{Ask, Asked, Participant, Verb};
use pictures::put_request;
use race_lines::Sent;
use std::alloc::{AllocError, Global};

/// The callers and their requests, as `caller 1: create Pod/default/a: `.
pub(crate) fn all_words(
    alloc: Global,
    participants: &[Participant],
    sent: &[Sent],
) -> Result<Vec<Vec<u8>>, AllocError>
    ensures { IfOk result (λ all. lists_in all.items ≡ all_words participants.now sent.now) }
{
    let mut all = Vec::new(alloc);
    for one in sent {
        let words = sent_words(alloc, participants, one)?;
        all.push(words)?;
    }
    Ok(all)
}

fn sent_words(
    alloc: Global,
    participants: &[Participant],
    one: &Sent,
) -> Result<Vec<u8>, AllocError>
    ensures { IfOk result (λ words. words.items ≡ sent_words participants.now one.now) }
{
    let mut text = String::new(alloc);
    put_caller(one.caller, &mut text)?;
    put_asked(ask_in(participants, one), &mut text)?;
    text.push_str(": ")?;
    Ok(text.into_bytes())
}

fn put_caller(caller: u64, out: &mut String) -> Result<(), AllocError>
    ensures { OnOk result (string_bytes out.new ≡ string_bytes out.old ++ (codes "caller " ++ (decimal caller ++ codes ": "))) }
{
    write!(out, "caller {caller}: ")
}

/// The request of a caller that was sent as that one.
fn ask_in<'a>(participants: &'a [Participant], one: &Sent) -> Option<&'a Ask>
    ensures { option_map (λ a. a.now) result ≡ ask_in participants.now one.now }
{
    match participants.get(one.participant)? {
        Participant::Caller(caller) => caller.asks.as_slice().get(one.index),
        _ => None,
    }
}

fn put_asked(ask: Option<&Ask>, out: &mut String) -> Result<(), AllocError>
    ensures { OnOk result (string_bytes out.new ≡ string_bytes out.old ++ asked_words (option_copied ask.entry)) }
{
    match ask {
        Some(ask) => put_request_of(&ask.asked, out),
        None => Ok(()),
    }
}

fn put_request_of(asked: &Asked, out: &mut String) -> Result<(), AllocError>
    ensures { OnOk result (string_bytes out.new ≡ string_bytes out.old ++ request_of asked.now) }
{
    match asked {
        Asked::Request(request) => put_request(request, out),
        Asked::Last { verb, patch: _ } => out.push_str(verb_words(verb)),
    }
}

fn verb_words(verb: &Verb) -> &'static str
    ensures { result.now ≡ verb_words verb.now }
{
    match verb {
        Verb::Get => "get last",
        Verb::Update => "update last",
        Verb::UpdateStatus => "status last",
        Verb::Delete { at: _ } => "delete last",
    }
}
