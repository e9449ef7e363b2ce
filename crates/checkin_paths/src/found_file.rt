//! What is found of a path whose file is stored: its file is taken, and its object is looked at.
ghost use Rattle.std.specs.Prelude.{◌≡◌, IfOk, OnErr, true};
ghost use Rattle.std.specs.Str.{IsUtf8};
ghost use Rattle.checkin_paths.specs.Fates.{is_auto};
ghost use Rattle.checkin_paths.specs.Outcomes.{MakesBlob};
ghost use Rattle.checkin_paths.specs.Looks.{AnswersWithout, AnswersCrlf, LooksOld, IsFoundBy};
ghost use Rattle.checkin_paths.specs.Looks.{IsUnfailedTake, FindsThere, FindsTaken, Finds, found_failed};

use crate::files::Files;
use crate::path::CheckinPath;
use back_convert::has_crlf;
use byte_path::ObjectId;
use checkout_plan::object_content;
use edge_kit::{Repo, TakeFault};
use eol_convert::Action;
use object_dir::ObjectFault;
use std::alloc::{AllocError, Global};

/// The most bytes of a file.
const MAX_FILE: u64 = 268_435_456;

/// What was found of a path's file.
#[derive(Drop)]
pub(crate) enum Found {
    /// There is none.
    Gone,
    /// It, or the index's content of the path, couldn't be read.
    Unread,
    /// It is of another kind than the index has.
    OtherKind,
    /// It has more than 268,435,456 bytes.
    TooLarge,
    There {
        bytes: Vec<u8>,
        /// Whether the index's content has a CR directly before an LF, if the action asks for it.
        old: bool,
    },
}

fn is_auto(action: Action) -> bool
    ensures { result ≡ is_auto action }
{
    match action {
        Action::Binary | Action::TextLf | Action::TextCrlf => false,
        Action::AutoLf | Action::AutoCrlf => true,
    }
}

/// What an object says that gave no content. An object that is absent or wrong has no CR directly before an LF, and
/// there is no answer if reading it failed.
fn crlf_without(fault: ObjectFault) -> Result<Option<bool>, AllocError>
    ensures { AnswersWithout fault result }
{
    match fault {
        ObjectFault::ReadFailed => Ok(None),
        ObjectFault::NoMemory => Err(AllocError),
        _ => Ok(Some(false)),
    }
}

/// Whether a content has a CR directly before an LF.
fn crlf_of(content: Result<Vec<u8>, ObjectFault>) -> Result<Option<bool>, AllocError>
    ensures { AnswersCrlf content result }
{
    match content {
        Ok(content) => Ok(Some(has_crlf(&content))),
        Err(fault) => crlf_without(fault),
    }
}

/// Whether the content of an object has a CR directly before an LF.
fn read_old<R: Repo>(
    alloc: Global,
    repo: &mut R,
    name: &ObjectId,
) -> Result<Option<bool>, AllocError>
    ensures told { R.told repo.new ≡ R.told repo.old }
    ensures looks { IfOk result (LooksOld true ((R.told repo.old).object name.now) name.now
        (R.seen repo.old) (R.seen repo.new)) }
    ensures left { OnErr result (MakesBlob true name.now (R.seen repo.old) (R.seen repo.new)) }
{
    crlf_of(object_content(alloc, repo, name))
}

/// Whether the index's content has a CR directly before an LF, if the action asks for it, and no if it doesn't.
fn old_for<R: Repo>(
    alloc: Global,
    repo: &mut R,
    action: Action,
    name: &ObjectId,
) -> Result<Option<bool>, AllocError>
    ensures told { R.told repo.new ≡ R.told repo.old }
    ensures looks { IfOk result (LooksOld (is_auto action) ((R.told repo.old).object name.now) name.now
        (R.seen repo.old) (R.seen repo.new)) }
    ensures left { OnErr result (MakesBlob (is_auto action) name.now (R.seen repo.old) (R.seen repo.new)) }
{
    if is_auto(action) {
        read_old(alloc, repo, name)
    } else {
        Ok(Some(false))
    }
}

/// What was found of a file that is there, by what the index's content says. It is unread if that says nothing, and too
/// large if it gave no bytes.
fn found_by(old: Option<bool>, bytes: Option<Vec<u8>>) -> Found
    ensures { IsFoundBy old bytes result }
{
    let Some(old) = old else {
        return Found::Unread;
    };
    match bytes {
        Some(bytes) => Found::There { bytes, old },
        None => Found::TooLarge,
    }
}

/// What is found, once the index's content is looked at if the action asks for it.
fn find_there<R: Repo>(
    alloc: Global,
    repo: &mut R,
    name: &ObjectId,
    action: Action,
    bytes: Option<Vec<u8>>,
) -> Result<Found, AllocError>
    ensures told { R.told repo.new ≡ R.told repo.old }
    ensures finds { IfOk result (FindsThere ((R.told repo.old).object name.now) name.now action bytes
        (R.seen repo.old) (R.seen repo.new)) }
    ensures left { OnErr result (MakesBlob (is_auto action) name.now (R.seen repo.old) (R.seen repo.new)) }
{
    let old = old_for(alloc, repo, action, name)?;
    Ok(found_by(old, bytes))
}

/// What was found of a file that couldn't be taken.
fn found_failed(by_kind: bool) -> Found
    ensures { result ≡ found_failed by_kind }
{
    if by_kind {
        Found::OtherKind
    } else {
        Found::Unread
    }
}

/// What was found of a file, by what taking it gave, and by whether it failed by the file's kind if it did.
fn find_taken<R: Repo>(
    alloc: Global,
    repo: &mut R,
    name: &ObjectId,
    action: Action,
    taken: Result<Option<Vec<u8>>, TakeFault>,
    by_kind: bool,
) -> Result<Found, AllocError>
    ensures told { R.told repo.new ≡ R.told repo.old }
    ensures finds { IfOk result (FindsTaken ((R.told repo.old).object name.now) name.now action taken by_kind
        (R.seen repo.old) (R.seen repo.new)) }
    ensures left { OnErr result (MakesBlob (is_auto action) name.now (R.seen repo.old) (R.seen repo.new)) }
    ensures unfailed { OnErr result (IsUnfailedTake taken) }
{
    match taken {
        Ok(Some(bytes)) => find_there(alloc, repo, name, action, Some(bytes)),
        Ok(None) => Ok(Found::Gone),
        Err(fault) => match fault {
            TakeFault::TooLong => find_there(alloc, repo, name, action, None),
            TakeFault::Failed => Ok(found_failed(by_kind)),
            TakeFault::NoMemory => Err(AllocError),
        },
    }
}

/// What is found of a path whose file is stored.
pub(crate) fn find_file<R: Repo, F: Files>(
    alloc: Global,
    repo: &mut R,
    files: &mut F,
    path: &CheckinPath,
    action: Action,
) -> Result<Found, AllocError>
    requires { IsUtf8 path.now.path }
    ensures told { R.told repo.new ≡ R.told repo.old }
    ensures files { F.told files.new ≡ F.told files.old }
    ensures finds { IfOk result (Finds (R.told repo.old).object (F.told files.old) path.now action
        (R.seen repo.old) (R.seen repo.new) (F.seen files.old) (F.seen files.new)) }
    ensures left { OnErr result (MakesBlob (is_auto action) path.now.object (R.seen repo.old) (R.seen repo.new)) }
    ensures unfailed { OnErr result (F.seen files.new ≡ F.seen files.old) }
{
    let Ok(name) = str::from_utf8(path.path.as_slice()) else {
        unreachable!()
    };
    let taken = files.take(name, MAX_FILE);
    let by_kind = files.failed_by_kind();
    find_taken(alloc, repo, &path.object, action, taken, by_kind)
}
