//! Runs of cases.
use case_kit::Cell;
use checkout_engine::run;
use engine_views::{RunView, Sight, left_of, said};
use engine_world::{Case, World, case_of, world_of};
use std::alloc::Global;
use std::string::String;
use std::sync::Wait;
use std::test::Fail;
use std::thread::Threads;

/// Runs a case. It gives the status.
fn play<H: Threads + Wait + Sync>(rt: &H, alloc: Global, case: &Case, world: &mut World) -> u8 {
    run(
        rt,
        alloc,
        &case.words,
        &mut world.repo,
        &mut world.tree,
        &mut world.spawner,
        &case.gate,
        &mut world.out,
        &mut world.history,
    )
}

/// What comes of a case over what it is made over.
fn played<H: Threads + Wait + Sync>(
    rt: &H,
    alloc: Global,
    sight: Sight<'_>,
    case: &Case,
    world: &mut World,
) -> Result<String, Fail> {
    let status = play(rt, alloc, case, world);
    said(alloc, sight, &left_of(status, case, world))
}

/// What comes of a case.
fn case_ran<H: Threads + Wait + Sync>(
    rt: &H,
    alloc: Global,
    sight: Sight<'_>,
    case: &mut Case,
) -> Result<String, Fail> {
    let mut world = world_of(alloc, case)?;
    played(rt, alloc, sight, case, &mut world)
}

/// What comes of these cells, with these words, if there are any.
pub fn ran<H: Threads + Wait + Sync>(
    rt: &H,
    alloc: Global,
    sight: Sight<'_>,
    words: &[u8],
) -> Result<String, Fail> {
    let mut case = case_of(alloc, sight.cells, words)?;
    case_ran(rt, alloc, sight, &mut case)
}

/// Appends what comes by two workers and by more, if it is another text than by one.
fn push_others(seen: &mut String, two: &str, many: &str) -> Result<(), Fail> {
    if two != seen.as_str() || many != seen.as_str() {
        write!(seen, "but by 2 {two}and by 16 {many}")?;
    }
    Ok(())
}

/// What comes of these cells by one worker, and by more if another text comes of them.
pub fn talked<H: Threads + Wait + Sync>(
    rt: &H,
    alloc: Global,
    cells: &[Cell],
) -> Result<String, Fail> {
    let sight = Sight {
        view: RunView::Talk,
        cells,
    };
    let mut seen = ran(rt, alloc, sight, b"checkout --workers=1")?;
    let two = ran(rt, alloc, sight, b"checkout --workers=2")?;
    let many = ran(rt, alloc, sight, b"checkout --workers=16")?;
    push_others(&mut seen, two.as_str(), many.as_str())?;
    Ok(seen)
}
