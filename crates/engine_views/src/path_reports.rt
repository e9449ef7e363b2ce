//! Reports of paths.
use byte_path::Bytes;
use case_kit::{Cell, Words, found, unknown};
use checkout_core::{FailCause, FilterCause, ObjectKind, SkipCause, Verdict};
use checkout_report::{ReportPath, is_failed, report_text};
use edge_kit::Mark;
use filter_words::BreakCause;
use std::alloc::Global;
use std::test::Fail;

fn mark_of(letter: &[u8]) -> Result<Mark, Fail> {
    match letter {
        [b'-'] => Ok(Mark::Plain),
        [b'x'] => Ok(Mark::Executable),
        [b'l'] => Ok(Mark::LinkText),
        _ => Err(unknown(letter)),
    }
}

const VERDICTS: Words<Verdict> = &[
    (b"written", Verdict::Written { unencoded: false }),
    (b"unencoded", Verdict::Written { unencoded: true }),
    (
        b"refused",
        Verdict::Unfiltered {
            cause: FilterCause::Error,
            unencoded: false,
        },
    ),
    (
        b"bad-packet-unencoded",
        Verdict::Unfiltered {
            cause: FilterCause::Broken(BreakCause::BadPacket),
            unencoded: true,
        },
    ),
    (
        b"no-object",
        Verdict::Failed(FailCause::Object(ObjectKind::Absent)),
    ),
    (b"unwritten", Verdict::Failed(FailCause::WriteFailed)),
    (b"unread", Verdict::Failed(FailCause::ReadFailed)),
    (b"no-memory", Verdict::NoMemory),
    (b"gitlink", Verdict::Skipped(SkipCause::Gitlink)),
];

/// The report of the paths of these cells, each a path, its mark and its verdict. A line `failed` or `not` follows for
/// each path.
pub fn reported(alloc: Global, cells: &[Cell]) -> Result<Vec<u8>, Fail> {
    let mut paths = Vec::new(alloc);
    let mut verdicts = Vec::new(alloc);
    let mut fails = Vec::new(alloc);
    for three in cells.chunks(3) {
        let [path, mark, verdict] = three else {
            return Err(unknown(b"two cells"));
        };
        let verdict = found(VERDICTS, &verdict.value)?;
        paths.push(ReportPath {
            path: Bytes::copy_of(alloc, &path.value)?,
            mark: mark_of(&mark.value)?,
        })?;
        verdicts.push(verdict)?;
        if is_failed(&verdict) {
            fails.extend_from_slice(b"failed\n")?;
        } else {
            fails.extend_from_slice(b"not\n")?;
        }
    }
    let mut text = report_text(alloc, &paths, &verdicts)?;
    text.extend_from_slice(&fails)?;
    Ok(text)
}
