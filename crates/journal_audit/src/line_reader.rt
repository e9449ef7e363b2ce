//! The lines of a journal, read.
ghost use Rattle.std.specs.Prelude.{◌≡◌, List, ℕ, IfSome};
ghost use Rattle.journal_audit.specs.Reading.{number, flag, need, event_two, event_three, event_four, event_of};
ghost use Rattle.journal_audit.specs.Reading.{close_of, opened_of, names_of, done_of, IsLimited};
ghost use Rattle.journal_audit.specs.Reading.{start_one, start_two, start_three};
ghost use Rattle.journal_audit.specs.Reading.{start_of, is_head, limited_head, head_four, head_of, end_two, is_end};
ghost use Rattle.journal_audit.specs.Cuts.{AreWords};

use crate::cut::Words;
use crate::words::{list_of, opening_of, own_of, planned_of, reply_of};
use byte_path::read_decimal;
use checkout_core::{Event, Start};
use filter_words::{Caps, ListReply};

/// The numbers of the first line.
#[derive(Clone, Copy)]
pub(crate) struct Head {
    pub(crate) workers: u32,
    pub(crate) drivers: u32,
    pub(crate) paths: u32,
}

fn number(word: &[u8]) -> Option<u32>
    ensures { result ≡ number word.now }
{
    let number = read_decimal(word, 4_294_967_295)?;
    Some(number as u32)
}

#[tactic(auto, unfolding(crate::specs::Reading::flag))]
fn flag(there: &[u8], word: &[u8]) -> Option<bool>
    ensures { result ≡ flag there.now word.now }
{
    if word == there {
        return Some(true);
    }
    if word == b"-".as_slice() {
        return Some(false);
    }
    None
}

#[tactic(auto, unfolding(crate::specs::Reading::need))]
fn need(word: &[u8]) -> Option<bool>
    ensures { result ≡ need word.now }
{
    if word == b"required".as_slice() {
        return Some(true);
    }
    if word == b"optional".as_slice() {
        return Some(false);
    }
    None
}

#[tactic(auto, unfolding(crate::specs::Reading::event_two))]
fn event_two(head: &[u8], number: u32) -> Option<Event>
    ensures { result ≡ event_two head.now number }
{
    if head == b"named".as_slice() {
        return Some(Event::Named { path: number });
    }
    if head == b"hand-back".as_slice() {
        return Some(Event::HandBack { path: number });
    }
    if head == b"shut".as_slice() {
        return Some(Event::Shut { driver: number });
    }
    None
}

#[tactic(auto, unfolding(crate::specs::Reading::event_three))]
fn event_three(head: &[u8], at: u32, word: &[u8]) -> Option<Event>
    ensures { result ≡ event_three head.now at word.now }
{
    if head == b"claim".as_slice() {
        let actor = number(word)?;
        return Some(Event::Claim { path: at, actor });
    }
    if head == b"open-failed".as_slice() {
        let cause = opening_of(word)?;
        return Some(Event::OpenFailed { path: at, cause });
    }
    if head == b"answered".as_slice() {
        let reply = reply_of(word)?;
        return Some(Event::Answered { path: at, reply });
    }
    if head == b"listed".as_slice() {
        let reply = list_of(word)?;
        return Some(Event::Listed { driver: at, reply });
    }
    if head == b"redone".as_slice() {
        let reply = reply_of(word)?;
        return Some(Event::Redone { path: at, reply });
    }
    None
}

fn close_of(path: u32, actor: &[u8], own: &[u8]) -> Option<Event>
    ensures { result ≡ close_of path actor.now own.now }
{
    let actor = number(actor)?;
    let own = own_of(own)?;
    Some(Event::Close { path, actor, own })
}

fn opened_of(driver: u32, smudge: &[u8], delay: &[u8]) -> Option<Event>
    ensures { result ≡ opened_of driver smudge.now delay.now }
{
    let smudge = flag(b"smudge", smudge)?;
    let delay = flag(b"delay", delay)?;
    let caps = Caps { smudge, delay };
    Some(Event::Opened { driver, caps })
}

#[tactic(auto, unfolding(crate::specs::Reading::names_of))]
fn names_of(driver: u32, names: &[u8], count: &[u8]) -> Option<Event>
    ensures { result ≡ names_of driver names.now count.now }
{
    if names != b"names".as_slice() {
        return None;
    }
    let reply = ListReply::Names(number(count)?);
    Some(Event::Listed { driver, reply })
}

#[tactic(auto, unfolding(crate::specs::Reading::event_four))]
fn event_four(head: &[u8], at: u32, word: &[u8], last: &[u8]) -> Option<Event>
    ensures { result ≡ event_four head.now at word.now last.now }
{
    if head == b"close".as_slice() {
        return close_of(at, word, last);
    }
    if head == b"opened".as_slice() {
        return opened_of(at, word, last);
    }
    if head == b"listed".as_slice() {
        return names_of(at, word, last);
    }
    None
}

/// The event of these words, or `None` if they are no event.
pub(crate) fn event_of(words: Words<'_>) -> Option<Event>
    ensures { (ws : List (List ℕ)) → AreWords ws words.entry → result ≡ event_of ws }
{
    match words {
        Words::Two(head, at) => event_two(head, number(at)?),
        Words::Three(head, at, word) => event_three(head, number(at)?, word),
        Words::Four(head, at, word, last) => event_four(head, number(at)?, word, last),
        Words::One(_) | Words::More => None,
    }
}

#[tactic(auto, unfolding(crate::specs::Reading::start_one))]
fn start_one(head: &[u8]) -> Option<Start>
    ensures { result ≡ start_one head.now }
{
    if head == b"pool".as_slice() {
        return Some(Start::Pool);
    }
    None
}

fn done_of(word: &[u8]) -> Option<Start>
    ensures { result ≡ done_of word.now }
{
    let verdict = planned_of(word)?;
    Some(Start::Done(verdict))
}

#[tactic(auto, unfolding(crate::specs::Reading::start_two))]
fn start_two(head: &[u8], word: &[u8]) -> Option<Start>
    ensures { result ≡ start_two head.now word.now }
{
    if head != b"done".as_slice() {
        return None;
    }
    done_of(word)
}

#[tactic(auto, unfolding(crate::specs::Reading::start_three))]
fn start_three(drivers: u32, head: &[u8], at: &[u8], word: &[u8]) -> Option<Start>
    ensures { result ≡ start_three drivers head.now at.now word.now }
{
    if head != b"desk".as_slice() {
        return None;
    }
    let driver = number(at)?;
    let required = need(word)?;
    if driver < drivers {
        return Some(Start::Desk { driver, required });
    }
    None
}

/// The start of these words, or `None` if they are none with a driver below this number.
pub(crate) fn start_of(drivers: u32, words: Words<'_>) -> Option<Start>
    ensures { (ws : List (List ℕ)) → AreWords ws words.entry → result ≡ start_of drivers ws }
{
    match words {
        Words::One(head) => start_one(head),
        Words::Two(head, word) => start_two(head, word),
        Words::Three(head, at, word) => start_three(drivers, head, at, word),
        Words::Four(..) | Words::More => None,
    }
}

#[tactic(auto, unfolding(crate::specs::Reading::is_head))]
fn is_head(workers: u32, drivers: u32, paths: u32) -> bool
    ensures { result ≡ is_head workers drivers paths }
{
    1 <= workers && workers <= 16 && drivers <= 16 && paths <= 100_000
}

#[tactic(auto, unfolding(crate::specs::Reading::limited_head))]
fn limited_head(workers: u32, drivers: u32, paths: u32) -> Option<Head>
    ensures value { result ≡ limited_head workers drivers paths }
    ensures within { IfSome result (λ h. IsLimited h.workers h.drivers h.paths) }
{
    if is_head(workers, drivers, paths) {
        return Some(Head {
            workers,
            drivers,
            paths,
        });
    }
    None
}

#[tactic(auto, unfolding(crate::specs::Reading::head_four))]
fn head_four(head: &[u8], workers: &[u8], drivers: &[u8], paths: &[u8]) -> Option<Head>
    ensures value { result ≡ head_four head.now workers.now drivers.now paths.now }
    ensures within { IfSome result (λ h. IsLimited h.workers h.drivers h.paths) }
{
    if head != b"journal".as_slice() {
        return None;
    }
    let workers = number(workers)?;
    let drivers = number(drivers)?;
    let paths = number(paths)?;
    limited_head(workers, drivers, paths)
}

/// The numbers of the first line, if these are its words.
pub(crate) fn head_of(words: Words<'_>) -> Option<Head>
    ensures value { (ws : List (List ℕ)) → AreWords ws words.entry → result ≡ head_of ws }
    ensures within { IfSome result (λ h. IsLimited h.workers h.drivers h.paths) }
{
    match words {
        Words::Four(head, workers, drivers, paths) => head_four(head, workers, drivers, paths),
        _ => None,
    }
}

#[tactic(auto, unfolding(crate::specs::Reading::end_two))]
fn end_two(events: u32, head: &[u8], count: &[u8]) -> bool
    ensures { result ≡ end_two events head.now count.now }
{
    if head != b"end".as_slice() {
        return false;
    }
    match number(count) {
        Some(count) => count == events,
        None => false,
    }
}

/// Whether these words are the last line, after so many events.
pub(crate) fn is_end(events: u32, words: Words<'_>) -> bool
    ensures { (ws : List (List ℕ)) → AreWords ws words.entry → result ≡ is_end events ws }
{
    match words {
        Words::Two(head, count) => end_two(events, head, count),
        _ => false,
    }
}
