//! What the words ask for: the journal of a rehearsal, or the audit of a file.
ghost use Rattle.std.specs.Prelude.{◌≡◌, ◌⊎◌, ◌≤◌, ◌<◌, ◌↔◌, ℕ, Some, None};
ghost use Rattle.edge_kit.specs.Faults.{Rose};
ghost use Rattle.edge_kit.specs.Seen.{BlobSeen};
ghost use Rattle.edge_kit.specs.Told.{Told};
ghost use Rattle.exit_status.specs.declared.status.ExitStatus.TheVariants.{Done, DoneWithFailures, ReadFault, Refused};
ghost use Rattle.journal_run.specs.declared.words.JournalTask.{JournalTask};
ghost use Rattle.journal_run.specs.declared.words.JournalTask.TheVariants.{Audit, Rehearsal};
ghost use Rattle.journal_run.specs.Words.{asked};
ghost use Rattle.journal_run.specs.Ends.{Ends, EndsForm, IsAnswered, IsAnsweredBy, IsCutOff, IsUnread};

use crate::finding::{FindFault, find, finding_line, status_of};
use crate::rehearsed::rehearsal_journal;
use crate::words::{JournalTask, task_of};
use edge_kit::{Blob, Gate, Sink};
use exit_status::{ExitStatus, say};
use std::alloc::Global;
use std::sync::Wait;
use std::thread::Threads;

/// The audit of a file: judges it, and writes what is found.
pub fn show_audit<B: Blob, O: Sink>(alloc: Global, text: &mut B, out: &mut O) -> ExitStatus
    ensures told { B.told text.new ≡ B.told text.old }
    ensures kept { B.seen text.new ≡ record (B.seen text.old) { faults = (B.seen text.new).faults } }
    ensures still { (result ≡ ReadFault) ⊎ (B.seen text.new ≡ B.seen text.old) }
    ensures ends { EndsForm Audit (B.told text.old)
        (B.seen text.old) (B.seen text.new) (O.seen out.old) (O.seen out.new) result }
{
    let finding = match find(alloc, text) {
        Ok(finding) => finding,
        Err(FindFault::ReadFault) => return ExitStatus::ReadFault,
        Err(FindFault::NoMemory) => return ExitStatus::OutOfMemory,
    };
    let Ok(line) = finding_line(alloc, finding) else {
        return ExitStatus::OutOfMemory;
    };
    say(out, line.as_bytes(), status_of(finding))
}

/// Rehearses so many paths, and writes the journal of that.
fn show_journal<G: Gate, O: Sink, H: Threads + Wait + Sync>(
    rt: &H,
    alloc: Global,
    seed: u64,
    paths: u32,
    gate: &G,
    out: &mut O,
) -> ExitStatus
    requires { paths ≤ 99999 }
    ensures { (told : Told) (text : BlobSeen) → EndsForm (Rehearsal seed paths) told text text
        (O.seen out.old) (O.seen out.new) result }
{
    let Ok(journal) = rehearsal_journal(rt, alloc, seed, paths, gate) else {
        return ExitStatus::OutOfMemory;
    };
    say(out, &journal, ExitStatus::Done)
}

/// Does what the words ask for.
fn obey<B: Blob, G: Gate, O: Sink, H: Threads + Wait + Sync>(
    rt: &H,
    alloc: Global,
    words: &[String],
    text: &mut B,
    gate: &G,
    out: &mut O,
) -> ExitStatus
    ensures told { B.told text.new ≡ B.told text.old }
    ensures kept { B.seen text.new ≡ record (B.seen text.old) { faults = (B.seen text.new).faults } }
    ensures still { (result ≡ ReadFault) ⊎ (B.seen text.new ≡ B.seen text.old) }
    ensures ends { Ends (asked words.now) (B.told text.old)
        (B.seen text.old) (B.seen text.new) (O.seen out.old) (O.seen out.new) result }
{
    match task_of(words) {
        Some(JournalTask::Audit) => show_audit(alloc, text, out),
        Some(JournalTask::Rehearsal { seed, paths }) => show_journal(
            rt, alloc, seed, paths, gate, out,
        ),
        None => ExitStatus::Usage,
    }
}

/// Does what these words ask for: `REPO TREE journal SEED PATHS` or `REPO TREE audit`.
///
/// `journal` rehearses so many paths in memory, as the command `rehearse` does, and writes the journal of its run.
/// `audit` judges `text`, which stands for the file REPO, and writes one line. Neither looks at the words REPO and
/// TREE.
///
/// It returns the status that the program ends with.
pub fn journal_run<B: Blob, G: Gate, O: Sink, H: Threads + Wait + Sync>(
    rt: &H,
    alloc: Global,
    words: &[String],
    text: &mut B,
    gate: &G,
    out: &mut O,
) -> u8
    // 0 of `journal`: the journal of the rehearsal was written whole. Its history is complete and legal, and its replay
    // gives the verdicts of the rehearsal's paths.
    ensures printed { (seed paths : ℕ) → asked words.now ≡ Some (Rehearsal seed paths) → result ≡ 0
        → IsAnswered (Rehearsal seed paths) (B.told text.old) Done (O.seen out.old) (O.seen out.new) }
    // 0 of `audit`: each event of the text is legal, and the line that says so was written whole.
    ensures legal { asked words.now ≡ Some Audit → result ≡ 0
        → IsAnswered Audit (B.told text.old) Done (O.seen out.old) (O.seen out.new) }
    // 1: `audit` was asked for, an event of the text isn't legal, and the line that names it was written whole.
    ensures illegal { result ≡ 1 → (asked words.now ≡ Some Audit)
        × IsAnswered Audit (B.told text.old) DoneWithFailures (O.seen out.old) (O.seen out.new) }
    // 2 comes exactly where the words ask for neither.
    ensures usage { (result ≡ 2) ↔ (asked words.now ≡ None) }
    // 3: `audit` was asked for, there is no text, or it is too large or no journal, and the line that says so was
    // written whole.
    ensures unreadable { result ≡ 3 → (asked words.now ≡ Some Audit)
        × IsAnswered Audit (B.told text.old) Refused (O.seen out.old) (O.seen out.new) }
    // 4: the sink failed, and a first part of the answer was written.
    ensures cut_off { (form : JournalTask) → asked words.now ≡ Some form → result ≡ 4
        → IsCutOff form (B.told text.old) (O.seen out.old) (O.seen out.new) }
    // 5: memory ran out, and nothing was written.
    ensures out_of_memory { result ≡ 5 → O.seen out.new ≡ O.seen out.old }
    // 6: `audit` was asked for, the text couldn't be read, and nothing was written.
    ensures read_fault { result ≡ 6 → (asked words.now ≡ Some Audit)
        × IsUnread (B.told text.old) (B.seen text.old) (B.seen text.new) × (O.seen out.new ≡ O.seen out.old) }
    // There is no other end.
    ensures number { result < 7 }
    // Where no count of faults rises, the answer is written whole and the status is its own, or memory runs out.
    ensures complete { (form : JournalTask) → asked words.now ≡ Some form
        → (Rose (B.seen text.old).faults (B.seen text.new).faults → ⊥)
        → (Rose (O.seen out.old).faults (O.seen out.new).faults → ⊥)
        → (result ≡ 5) ⊎ IsAnsweredBy form (B.told text.old) result (O.seen out.old) (O.seen out.new) }
    // What the text tells stays, and so does its name.
    ensures told { B.told text.new ≡ B.told text.old }
    ensures kept { B.seen text.new ≡ record (B.seen text.old) { faults = (B.seen text.new).faults } }
    // Its count of faults rises only with 6.
    ensures still { (result ≡ 6) ⊎ (B.seen text.new ≡ B.seen text.old) }
    // Where the words ask for neither, nothing at all is done.
    ensures unasked { asked words.now ≡ None
        → (B.seen text.new ≡ B.seen text.old) × (O.seen out.new ≡ O.seen out.old) }
{
    obey(rt, alloc, words, text, gate, out).number()
}
