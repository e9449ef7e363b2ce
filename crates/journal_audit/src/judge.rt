//! The judge of a journal.
ghost use Rattle.std.specs.Prelude.{◌≡◌, ◌+◌, ◌≤◌, ◌<◌, ◌^◌, [], true, IfOk, IfSome, MatchOption, length};
ghost use Rattle.byte_path.specs.Characters.{line_feed};
ghost use Rattle.journal_audit.specs.Reading.{parts, core_after, wrong_after, judged, audit_events, audit_end};
ghost use Rattle.journal_audit.specs.Reading.{audit_starts, audit_text, IsNoStart, IsNextStart, IsLimited};
ghost use Rattle.journal_audit.specs.Journal.{start_fits};
ghost use Rattle.journal_audit.specs.Audits.{IsAudit};

use crate::answer::Audit;
use crate::cut::{cut, words_in};
use crate::line_reader::{Head, event_of, head_of, is_end, start_of};
use byte_path::one_decimal;
use checkout_core::{Event, Refused, Start, State, step};
use std::alloc::{AllocError, Global};

/// A run so far.
#[derive(Drop)]
struct Run {
    state: State,
    /// The line of the first event that isn't a step.
    wrong: Option<u32>,
}

impl Run {
    /// Takes one more event, of this line.
    fn take(&mut self, event: Event, line: u32)
        ensures state { self.new.state ≡ core_after self.old.wrong self.old.state event }
        ensures wrong { self.new.wrong ≡ wrong_after self.old.wrong self.old.state event line }
    {
        if self.wrong.is_some() {
            return;
        }
        match step(&mut self.state, event) {
            Ok(()) => {}
            Err(Refused) => self.wrong = Some(line),
        }
    }

    /// The answer after these events.
    fn judged(&self, events: u32) -> Audit
        ensures { result ≡ judged self.now.wrong self.now.state events }
    {
        match self.wrong {
            Some(line) => Audit::Illegal { line },
            None => Audit::Legal {
                events,
                unclosed: self.state.unclosed(),
            },
        }
    }

    /// The answer at a line that isn't an event: it may be the last.
    fn end(&self, is_end: bool, is_last: bool, events: u32, line: u32) -> Audit
        requires { line + 1 < 2 ^ 32 }
        ensures { result ≡ audit_end is_end is_last self.now.state self.now.wrong events line }
    {
        if !is_end {
            return Audit::Unreadable { line };
        }
        if !is_last {
            return Audit::Unreadable { line: line + 1 };
        }
        self.judged(events)
    }
}

/// Judges what follows the starts: the events, the first of them on this line.
fn audit_events(run: &mut Run, text: &[u8], first: u32) -> Audit
    requires short { length text.now ≤ 67108864 }
    requires early { first ≤ 100002 }
    ensures { result ≡ audit_events run.old.state run.old.wrong 0 first (parts line_feed text.now) }
{
    let mut rest = text;
    let mut events = 0u32;
    'lines: while let Some((row, behind)) = cut(b'\n', rest) {
        let words = words_in(row);
        let line = first + events;
        let Some(event) = event_of(words) else {
            return run.end(is_end(events, words), behind.is_empty(), events, line);
        };
        run.take(event, line);
        events += 1;
        rest = behind;
    }
    Audit::Unreadable {
        line: first + events,
    }
}

/// The start of the next line, and what follows it. There is none if the line ends the text or is no start.
fn next_start(drivers: u32, text: &[u8]) -> Option<(Start, &[u8])>
    ensures next { MatchOption result (IsNoStart drivers text.now)
        (λ x. IsNextStart drivers text.now x.0 x.1.now) }
    ensures within { IfSome result (λ x. length x.1.now < length text.now) }
    ensures below { IfSome result (λ x. start_fits drivers x.0 ≡ true) }
{
    one_decimal();
    let Some((row, behind)) = cut(b'\n', text) else {
        return None;
    };
    let Some(start) = start_of(drivers, words_in(row)) else {
        return None;
    };
    Some((start, behind))
}

/// Judges what follows the first line.
fn audit_starts(alloc: Global, head: Head, text: &[u8]) -> Result<Audit, AllocError>
    requires short { length text.now ≤ 67108864 }
    requires within { IsLimited head.workers head.drivers head.paths }
    ensures { IfOk result (λ a.
        a ≡ audit_starts head.workers head.drivers head.paths [] (parts line_feed text.now)) }
{
    let mut starts = Vec::new(alloc);
    let mut rest = text;
    for at in 0..head.paths {
        let Some((start, behind)) = next_start(head.drivers, rest) else {
            return Ok(Audit::Unreadable { line: at + 2 });
        };
        starts.push(start)?;
        rest = behind;
    }
    let state = State::start(alloc, starts, head.workers, head.drivers)?;
    let mut run = Run { state, wrong: None };
    Ok(audit_events(&mut run, rest, head.paths + 2))
}

/// Judges a text line by line.
fn audit_lines(alloc: Global, text: &[u8]) -> Result<Audit, AllocError>
    requires { length text.now ≤ 67108864 }
    ensures { IfOk result (λ a. a ≡ audit_text (parts line_feed text.now)) }
{
    let Some((row, behind)) = cut(b'\n', text) else {
        return Ok(Audit::Unreadable { line: 1 });
    };
    let Some(head) = head_of(words_in(row)) else {
        return Ok(Audit::Unreadable { line: 1 });
    };
    audit_starts(alloc, head, behind)
}

/// Judges a text as the journal of a run. It takes memory for the paths and not for the events.
pub fn audit(alloc: Global, text: &[u8]) -> Result<Audit, AllocError>
    requires { length text.now ≤ 67108864 }
    ensures { IfOk result (λ a. IsAudit text.now a) }
{
    one_decimal();
    audit_lines(alloc, text)
}
