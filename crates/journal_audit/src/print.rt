//! The journal as a text.
ghost use Rattle.std.specs.Prelude.{◌≡◌, ◌++◌, ◌∷◌, [], true, IfOk, OnOk, string_bytes, codes};
ghost use Rattle.std.specs.Fmt.{decimal};
ghost use Rattle.std.specs.List.{flat_map, list_all};
ghost use Rattle.journal_audit.specs.Journal.{line, head_words, start_line, event_line, end_words, spelling};
ghost use Rattle.journal_audit.specs.Journal.{word_if, need_word, list_words, list_fits, event_fits};
ghost use Rattle.journal_audit.specs.Audits.{Spells, IsPrintable, journal_of};

use crate::words::HasWord;
use checkout_core::{Event, Start};
use filter_words::ListReply;
use std::alloc::{AllocError, Global};

fn word_if(there: bool, word: &'static str) -> &'static str
    ensures { result.now ≡ word_if there word.now }
{
    if there { word } else { "-" }
}

fn need_word(required: bool) -> &'static str
    ensures { result.now ≡ need_word required }
{
    if required { "required" } else { "optional" }
}

fn two(alloc: Global, head: &str, at: u32) -> Result<String, AllocError>
    ensures { IfOk result (λ s. string_bytes s ≡ line (head.now ∷ decimal at ∷ [])) }
{
    format!(in alloc; "{head} {at}\n")
}

fn three(alloc: Global, head: &str, at: u32, word: &str) -> Result<String, AllocError>
    ensures { IfOk result (λ s. string_bytes s ≡ line (head.now ∷ decimal at ∷ word.now ∷ [])) }
{
    format!(in alloc; "{head} {at} {word}\n")
}

fn start_line(alloc: Global, start: &Start) -> Result<String, AllocError>
    ensures { IfOk result (λ s. string_bytes s ≡ start_line start.now) }
{
    match *start {
        Start::Pool => format!(in alloc; "pool\n"),
        Start::Desk { driver, required } => three(alloc, "desk", driver, need_word(required)),
        Start::Done(verdict) => {
            let word = verdict.word();
            format!(in alloc; "done {word}\n")
        }
    }
}

fn close_line(alloc: Global, path: u32, actor: u32, own: &str) -> Result<String, AllocError>
    ensures { IfOk result (λ s. string_bytes s
        ≡ line (codes "close" ∷ decimal path ∷ decimal actor ∷ own.now ∷ [])) }
{
    format!(in alloc; "close {path} {actor} {own}\n")
}

fn opened_line(alloc: Global, driver: u32, smudge: &str, delay: &str) -> Result<String, AllocError>
    ensures { IfOk result (λ s. string_bytes s
        ≡ line (codes "opened" ∷ decimal driver ∷ smudge.now ∷ delay.now ∷ [])) }
{
    format!(in alloc; "opened {driver} {smudge} {delay}\n")
}

fn names_line(alloc: Global, driver: u32, count: u32) -> Result<String, AllocError>
    ensures { IfOk result (λ s. string_bytes s
        ≡ line (codes "listed" ∷ decimal driver ∷ codes "names" ∷ decimal count ∷ [])) }
{
    format!(in alloc; "listed {driver} names {count}\n")
}

fn claim_line(alloc: Global, path: u32, actor: u32) -> Result<String, AllocError>
    ensures { IfOk result (λ s. string_bytes s
        ≡ line (codes "claim" ∷ decimal path ∷ decimal actor ∷ [])) }
{
    format!(in alloc; "claim {path} {actor}\n")
}

fn listed_line(alloc: Global, driver: u32, reply: ListReply) -> Result<String, AllocError>
    ensures text { IfOk result (λ s. string_bytes s
        ≡ line (codes "listed" ∷ decimal driver ∷ list_words reply)) }
    ensures small { OnOk result (list_fits reply ≡ true) }
{
    match reply {
        ListReply::Names(count) => names_line(alloc, driver, count),
        ListReply::Empty | ListReply::Abort | ListReply::NoMemory | ListReply::Broken(_) => {
            three(alloc, "listed", driver, reply.word())
        }
    }
}

fn event_line(alloc: Global, event: &Event) -> Result<String, AllocError>
    ensures text { IfOk result (λ s. string_bytes s ≡ event_line event.now) }
    ensures small { OnOk result (event_fits event.now ≡ true) }
{
    match *event {
        Event::Claim { path, actor } => claim_line(alloc, path, actor),
        Event::Close { path, actor, own } => close_line(alloc, path, actor, own.word()),
        Event::Opened { driver, caps } => {
            let smudge = word_if(caps.smudge, "smudge");
            let delay = word_if(caps.delay, "delay");
            opened_line(alloc, driver, smudge, delay)
        }
        Event::OpenFailed { path, cause } => three(alloc, "open-failed", path, cause.word()),
        Event::Answered { path, reply } => three(alloc, "answered", path, reply.word()),
        Event::Named { path } => two(alloc, "named", path),
        Event::Listed { driver, reply } => listed_line(alloc, driver, reply),
        Event::Redone { path, reply } => three(alloc, "redone", path, reply.word()),
        Event::HandBack { path } => two(alloc, "hand-back", path),
        Event::Shut { driver } => two(alloc, "shut", driver),
    }
}

fn head_line(alloc: Global, workers: u32, drivers: u32, paths: usize) -> Result<String, AllocError>
    ensures { IfOk result (λ s. string_bytes s ≡ line (head_words workers drivers paths)) }
{
    format!(in alloc; "journal {workers} {drivers} {paths}\n")
}

fn end_line(alloc: Global, events: usize) -> Result<String, AllocError>
    ensures { IfOk result (λ s. string_bytes s ≡ line (end_words events)) }
{
    format!(in alloc; "end {events}\n")
}

fn push_starts(alloc: Global, text: &mut Vec<u8>, starts: &[Start]) -> Result<(), AllocError>
    ensures { OnOk result (text.new.items ≡ text.old.items ++ flat_map start_line starts.now) }
{
    for start in starts {
        let line = start_line(alloc, start)?;
        text.extend_from_slice(line.as_bytes())?;
    }
    Ok(())
}

fn push_events(alloc: Global, text: &mut Vec<u8>, history: &[Event]) -> Result<(), AllocError>
    ensures text { OnOk result (text.new.items
        ≡ text.old.items ++ flat_map event_line history.now) }
    ensures small { OnOk result (list_all event_fits history.now ≡ true) }
{
    for event in history {
        let line = event_line(alloc, event)?;
        text.extend_from_slice(line.as_bytes())?;
    }
    Ok(())
}

/// The journal of a run, as a text.
pub fn print_journal(
    alloc: Global,
    starts: &[Start],
    workers: u32,
    drivers: u32,
    history: &[Event],
) -> Result<Vec<u8>, AllocError>
    requires { IsPrintable starts.now workers drivers history.now }
    ensures { IfOk result (λ v.
        Spells v.items (journal_of starts.now workers drivers history.now)) }
{
    let mut text = Vec::new(alloc);
    let head = head_line(alloc, workers, drivers, starts.len())?;
    text.extend_from_slice(head.as_bytes())?;
    push_starts(alloc, &mut text, starts)?;
    push_events(alloc, &mut text, history)?;
    let end = end_line(alloc, history.len())?;
    text.extend_from_slice(end.as_bytes())?;
    Ok(text)
}
