//! What runs leave, and its text.
use crate::talks::push_talks;
use crate::work::{push_asked, push_counted, push_work};
use case_kit::Cell;
use checkout_core::Event;
use edge_kit::{DriverSeen, TreeFile};
use engine_world::{Case, Watch, World};
use std::alloc::Global;
use std::string::String;
use std::test::Fail;

/// What a run leaves.
#[derive(Drop)]
pub struct Left<'a> {
    pub status: u8,
    pub output: &'a [u8],
    pub files: &'a [TreeFile],
    /// How many blobs were given back.
    pub blobs: u32,
    /// The drivers that were given back.
    pub drivers: &'a [DriverSeen],
    pub gate: &'a Watch,
    pub history: &'a [Event],
    /// How many entries the index has.
    pub paths: u32,
}

/// What a case's run leaves, with this status.
pub fn left_of<'a>(status: u8, case: &'a Case, world: &'a World) -> Left<'a> {
    Left {
        status,
        output: world.out.bytes(),
        files: world.tree.files(),
        blobs: world.repo.blobs,
        drivers: world.spawner.inner().drivers(),
        gate: &case.gate,
        history: &world.history,
        paths: case.index.count,
    }
}

/// What of a run is shown.
#[derive(Clone, Copy)]
pub enum RunView {
    /// The report, the status and the files.
    Run,
    /// The report, the status, the files, and the talk with a driver.
    Talk,
    /// What a talk shows, of many paths, in few lines.
    Work,
    /// How many files there are, and the status.
    Counted,
}

/// What of a run is shown, and the cells, some of which ask for more lines.
#[derive(Clone, Copy)]
pub struct Sight<'a> {
    pub view: RunView,
    pub cells: &'a [Cell],
}

/// Appends the lines that the cells ask for.
fn push_all_asked(
    alloc: Global,
    seen: &mut String,
    left: &Left<'_>,
    cells: &[Cell],
) -> Result<(), Fail> {
    for cell in cells {
        push_asked(alloc, seen, left, cell)?;
    }
    Ok(())
}

/// Appends the text of what a run left.
fn push_view(alloc: Global, seen: &mut String, left: &Left<'_>, view: RunView) -> Result<(), Fail> {
    match view {
        RunView::Run => push_run(seen, left),
        RunView::Talk => push_talks(seen, left),
        RunView::Work => push_work(alloc, seen, left),
        RunView::Counted => push_counted(seen, left),
    }
}

/// Appends the text of what a run left, and the lines that the cells ask for.
fn push_sight(
    alloc: Global,
    seen: &mut String,
    left: &Left<'_>,
    sight: Sight<'_>,
) -> Result<(), Fail> {
    push_view(alloc, seen, left, sight.view)?;
    push_all_asked(alloc, seen, left, sight.cells)
}

/// The text of what a run left, and the lines that the cells ask for.
pub fn said(alloc: Global, sight: Sight<'_>, left: &Left<'_>) -> Result<String, Fail> {
    let mut seen = String::new(alloc);
    push_sight(alloc, &mut seen, left, sight)?;
    Ok(seen)
}

/// Appends a content, in hex if it isn't text.
pub fn push_content(seen: &mut String, content: &[u8]) -> Result<(), Fail> {
    match str::from_utf8(content) {
        Ok(text) => seen.push_str(text)?,
        Err(_) => {
            for byte in content {
                write!(seen, "{byte:02x}")?;
            }
        }
    }
    Ok(())
}

/// Appends the output, the status, and a line for each file.
pub fn push_run(seen: &mut String, left: &Left<'_>) -> Result<(), Fail> {
    seen.push_str(str::from_utf8(left.output)?)?;
    writeln!(seen, "status {}", left.status)?;
    for file in left.files {
        seen.push_str(str::from_utf8(file.path.as_slice())?)?;
        seen.push_str(": ")?;
        push_content(seen, file.bytes.as_slice())?;
    }
    Ok(())
}
