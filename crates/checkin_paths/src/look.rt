//! What becomes of a path: its file is found, cleaned by its driver, and stored.
ghost use Rattle.std.specs.Prelude.{◌≡◌, ◌≤◌, ◌<◌, ◌+◌, ◌^◌, IfOk, OnErr, length};
ghost use Rattle.clean_drivers.specs.Drivers.{drivers_seen, lines_out};
ghost use Rattle.checkin_paths.specs.declared.fate.Fate.TheVariants.{Failed};
ghost use Rattle.checkin_paths.specs.Outside.{work_seen};
ghost use Rattle.checkin_paths.specs.Outcomes.{IsLeftAt};
ghost use Rattle.checkin_paths.specs.CleanedFiles.{cleaning};
ghost use Rattle.checkin_paths.specs.Looks.{fate_by, IsStoredSo, IsCleanedFate, Becomes};
ghost use Rattle.checkin_paths.specs.Looks.{BecomesNothing, Looks, IsAskableBy, IsOpen};

use crate::cleaned_file::{Visit, clean_file};
use crate::fate::{CheckinCause, Fate};
use crate::files::Files;
use crate::found_file::{Found, find_file};
use crate::path::{Storing, Way};
use back_convert::{BackFault, to_stored};
use byte_path::ObjectId;
use clean_drivers::{CleanDrivers, CleanFault};
use edge_kit::{Repo, Spawner};
use object_dir::blob_name;
use one_shot::Once;
use std::alloc::{AllocError, Global};

/// What becomes of a path, with the content that its file is stored as. Without one it is empty.
#[derive(Drop)]
pub struct Looked {
    pub fate: Fate,
    pub content: Vec<u8>,
}

/// A fate without a content.
fn without_content(alloc: Global, fate: Fate) -> Looked
    ensures fate { result.fate ≡ fate }
{
    Looked {
        fate,
        content: Vec::new(alloc),
    }
}

/// A failure without a content.
fn failed(alloc: Global, cause: CheckinCause) -> Looked
    ensures fate { result.fate ≡ Failed cause }
{
    without_content(alloc, Fate::Failed(cause))
}

/// Whether a content has the name that the index has.
fn fate_by(name: &ObjectId, content: &[u8]) -> Fate
    ensures { result ≡ fate_by name.now content.now }
{
    let found = blob_name(content);
    if found == *name {
        Fate::Same
    } else {
        Fate::Changed(found)
    }
}

/// What becomes of a file with these bytes.
fn stored_fate(
    alloc: Global,
    name: &ObjectId,
    storing: Storing,
    old: bool,
    bytes: Vec<u8>,
) -> Result<Looked, AllocError>
    ensures { IfOk result (λ l. IsStoredSo name.now storing old bytes.items l.content.items l.fate) }
{
    let Storing {
        ident,
        action,
        encoding,
        ..
    } = storing;
    match to_stored(alloc, ident, action, encoding, old, bytes) {
        Ok(content) => Ok(Looked {
            fate: fate_by(name, &content),
            content,
        }),
        Err(BackFault::Form) => Ok(failed(alloc, CheckinCause::EncodingForm)),
        Err(BackFault::NoMemory) => Err(AllocError),
    }
}

/// What becomes of a file that is there, by what its bytes were cleaned to.
fn cleaned_fate(
    alloc: Global,
    name: &ObjectId,
    storing: Storing,
    old: bool,
    cleaned: Result<Vec<u8>, CleanFault>,
) -> Result<Looked, AllocError>
    ensures { IfOk result (λ l. IsCleanedFate name.now storing old cleaned l.content.items l.fate) }
{
    match cleaned {
        Ok(bytes) => stored_fate(alloc, name, storing, old, bytes),
        Err(CleanFault::Refused(why)) => Ok(failed(alloc, CheckinCause::Filter(why))),
        Err(CleanFault::NoMemory) => Err(AllocError),
    }
}

/// What becomes of a file, by what was found of it.
fn found_fate<P: Spawner, O: Once>(
    alloc: Global,
    lines: &mut CleanDrivers<P::Starter>,
    spawner: &mut P,
    once: &mut O,
    visit: &Visit<'_>,
    storing: Storing,
    found: Found,
) -> Result<Looked, AllocError>
    requires askable { IsAskableBy (length lines.old.lines) visit.now.path.now.path storing.driver }
    requires few { lines.old.asked + 1 < 2 ^ 32 }
    ensures starts { P.told spawner.new ≡ P.told spawner.old }
    ensures runs { O.told once.new ≡ O.told once.old }
    ensures becomes { IfOk result (λ l.
        Becomes (cleaning visit.now.drivers.now (P.told spawner.old) (O.told once.old))
        visit.now.path.now storing found
        (drivers_seen lines.old.lines (P.seen spawner.old) (O.faults once.old))
        (drivers_seen lines.new.lines (P.seen spawner.new) (O.faults once.new)) l.content.items l.fate) }
    ensures vain { OnErr result
        (BecomesNothing (cleaning visit.now.drivers.now (P.told spawner.old) (O.told once.old))
        visit.now.path.now storing found
        (drivers_seen lines.old.lines (P.seen spawner.old) (O.faults once.old))
        (drivers_seen lines.new.lines (P.seen spawner.new) (O.faults once.new))) }
    ensures asked { lines.new.asked ≤ lines.old.asked + 1 }
    ensures places { length lines.new.lines ≡ length lines.old.lines }
    ensures out { (P.seen spawner.new).out + lines_out lines.old.lines
        ≡ (P.seen spawner.old).out + lines_out lines.new.lines }
{
    match found {
        Found::Gone => Ok(without_content(alloc, Fate::Gone)),
        Found::Unread => Ok(failed(alloc, CheckinCause::Read)),
        Found::OtherKind => Ok(failed(alloc, CheckinCause::OtherKind)),
        Found::TooLarge => Ok(failed(alloc, CheckinCause::TooLarge)),
        Found::There { bytes, old } => {
            let cleaned = clean_file(alloc, lines, spawner, once, visit, storing.driver, bytes);
            cleaned_fate(alloc, &visit.path.object, storing, old, cleaned)
        }
    }
}

/// What becomes of a path.
pub fn look_at<R: Repo, F: Files, P: Spawner, O: Once>(
    alloc: Global,
    repo: &mut R,
    files: &mut F,
    lines: &mut CleanDrivers<P::Starter>,
    spawner: &mut P,
    once: &mut O,
    visit: &Visit<'_>,
) -> Result<Looked, AllocError>
    requires open { IsOpen (length lines.old.lines) visit.now.path.now }
    requires few { lines.old.asked + 1 < 2 ^ 32 }
    ensures told { R.told repo.new ≡ R.told repo.old }
    ensures files { F.told files.new ≡ F.told files.old }
    ensures starts { P.told spawner.new ≡ P.told spawner.old }
    ensures runs { O.told once.new ≡ O.told once.old }
    ensures looks { IfOk result (λ l.
        Looks (R.told repo.old).object (F.told files.old)
        (cleaning visit.now.drivers.now (P.told spawner.old) (O.told once.old)) visit.now.path.now
        (R.seen repo.old) (R.seen repo.new)
        (work_seen (F.seen files.old) (drivers_seen lines.old.lines (P.seen spawner.old) (O.faults once.old)))
        (work_seen (F.seen files.new) (drivers_seen lines.new.lines (P.seen spawner.new) (O.faults once.new)))
        l.content.items l.fate) }
    ensures unfailed { OnErr result (F.seen files.new ≡ F.seen files.old) }
    ensures left { OnErr result (IsLeftAt (R.told repo.old).object (F.told files.old)
        (cleaning visit.now.drivers.now (P.told spawner.old) (O.told once.old)) visit.now.path.now
        (R.seen repo.old) (R.seen repo.new)
        (drivers_seen lines.old.lines (P.seen spawner.old) (O.faults once.old))
        (drivers_seen lines.new.lines (P.seen spawner.new) (O.faults once.new))) }
    ensures asked { lines.new.asked ≤ lines.old.asked + 1 }
    ensures places { length lines.new.lines ≡ length lines.old.lines }
    ensures out { (P.seen spawner.new).out + lines_out lines.old.lines
        ≡ (P.seen spawner.old).out + lines_out lines.new.lines }
{
    let storing = match visit.path.way {
        Way::Kept => return Ok(without_content(alloc, Fate::Kept)),
        Way::UnknownEncoding => return Ok(failed(alloc, CheckinCause::Encoding)),
        Way::NoProcess => return Ok(failed(alloc, CheckinCause::NoProcess)),
        Way::Stored(storing) => storing,
    };
    let found = find_file(alloc, repo, files, visit.path, storing.action)?;
    found_fate(alloc, lines, spawner, once, visit, storing, found)
}
