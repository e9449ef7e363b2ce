//! A worktree in memory and its leaves, and a sink in memory.
//!
//! - `sink`: the cell `fails`, the number of the write that fails, and then `write`, each with a piece. What each write
//!   answers comes, and behind it all that was written.
//! - `leaf`: the cells `fails`, a call that fails on the leaf `a`, and `path` and `call`, a call on the leaf of this
//!   path:
//!   `put`, `restart`, `seal` or `discard`. It comes whether that goes well.
//! - `worktree`: the steps `seal` and `discard`, each with a path and behind a space a content, which are put and then
//!   sealed or discarded, `empty`, which asks whether the worktree is empty, and `files`, which lists the paths, each with
//!   its content. In a worktree with a first cell `broken` the question fails.
ghost use Rattle.std.specs.Prelude.{◌≡◌};
ghost use Rattle.edge_kit.specs.declared.leaf_state.LeafState.TheVariants.{Fresh};

use byte_path::Bytes;
use case_kit::{Cell, number_of, parted, push_all, shown, unknown};
use edge_kit::{Leaf, LeafCall, Mark, MemoryLeaf, MemorySink, MemoryTree, Sink, Worktree};
use std::alloc::{AllocError, Global};
use std::test::Fail;

/// Appends a line of an answer, and of all that was written.
fn push_line(came: &mut Vec<u8>, answer: &[u8], bytes: &[u8]) -> Result<(), AllocError> {
    push_all(came, &[answer, b" ", bytes, b"\n"])
}

/// Appends what a write answers, and all that was written.
fn push_write(
    alloc: Global,
    came: &mut Vec<u8>,
    sink: &mut MemorySink,
    piece: &[u8],
) -> Result<(), AllocError> {
    let answer = shown(alloc, sink.write(piece))?;
    push_line(came, &answer, sink.bytes())
}

/// Appends what each write answers.
fn push_writes(
    alloc: Global,
    came: &mut Vec<u8>,
    sink: &mut MemorySink,
    writes: &[Cell],
) -> Result<(), AllocError> {
    for write in writes {
        push_write(alloc, came, sink, &write.value)?;
    }
    Ok(())
}

/// What writes answer of which the one with this number fails.
fn written(alloc: Global, fails: u32, writes: &[Cell]) -> Result<Vec<u8>, AllocError> {
    let mut sink = MemorySink::new(alloc, Some(fails));
    let mut came = Vec::new(alloc);
    push_writes(alloc, &mut came, &mut sink, writes)?;
    Ok(came)
}

/// What comes of a case of the kind `sink`.
pub fn sunk(alloc: Global, cells: &[Cell]) -> Result<Vec<u8>, Fail> {
    let [fails, writes @ ..] = cells else {
        return Err(unknown(b"sink"));
    };
    let fails = number_of(&fails.value)?;
    Ok(written(alloc, fails, writes)?)
}

/// The call that a word names.
fn call_of(word: &[u8]) -> Result<LeafCall, Fail> {
    if word == b"put".as_slice() {
        Ok(LeafCall::Put)
    } else if word == b"restart".as_slice() {
        Ok(LeafCall::Restart)
    } else if word == b"seal".as_slice() {
        Ok(LeafCall::Seal)
    } else if word == b"discard".as_slice() {
        Ok(LeafCall::Discard)
    } else {
        Err(unknown(word))
    }
}

/// Makes this call on a fresh leaf, and returns whether it went well.
fn goes_well(leaf: &mut MemoryLeaf, call: LeafCall) -> bool
    requires { (⟦<MemoryLeaf as Leaf>⟧.seen leaf.old).state ≡ Fresh }
{
    match call {
        LeafCall::Put => leaf.put(b"x").is_ok(),
        LeafCall::Restart => leaf.restart().is_ok(),
        LeafCall::Seal => leaf.seal(Mark::Plain).is_ok(),
        LeafCall::Discard => leaf.discard().is_ok(),
    }
}

/// Whether a call on the leaf `path` goes well.
fn goes_in(tree: &mut MemoryTree, path: &str, call: LeafCall) -> Result<bool, AllocError> {
    let mut leaf = tree.leaf(path)?;
    let well = goes_well(&mut leaf, call);
    tree.take_back(leaf);
    Ok(well)
}

/// The call on the leaf `a` that fails.
fn fails_of(alloc: Global, fail: LeafCall) -> Result<Vec<(Bytes, LeafCall)>, AllocError> {
    let path = Bytes::copy_of(alloc, b"a")?;
    let fails = vec![in alloc; (path, fail)]?;
    Ok(fails)
}

/// Whether a call on the leaf `path` goes well if the call `fail` on the leaf `a` is to fail.
fn goes_beside(
    alloc: Global,
    fail: LeafCall,
    path: &str,
    call: LeafCall,
) -> Result<bool, AllocError> {
    let mut tree = MemoryTree::new(alloc, true, fails_of(alloc, fail)?, false);
    goes_in(&mut tree, path, call)
}

/// What comes of a case of the kind `leaf`.
pub fn called(alloc: Global, cells: &[Cell]) -> Result<Vec<u8>, Fail> {
    let [fails, path, call] = cells else {
        return Err(unknown(b"leaf"));
    };
    let fails = call_of(&fails.value)?;
    let path = str::from_utf8(&path.value)?;
    let call = call_of(&call.value)?;
    Ok(shown(alloc, goes_beside(alloc, fails, path, call)?)?)
}

/// Writes a file, and seals it or discards it.
fn write_one(
    tree: &mut MemoryTree,
    path: &str,
    content: &[u8],
    sealed: bool,
) -> Result<bool, AllocError> {
    let mut leaf = tree.leaf(path)?;
    let ended = leaf.put(content).is_ok()
        && (if sealed {
            leaf.seal(Mark::Executable)
        } else {
            leaf.discard()
        })
        .is_ok();
    tree.take_back(leaf);
    Ok(ended)
}

/// The paths and the contents of the files, one after the other.
fn all_files(alloc: Global, tree: &MemoryTree) -> Result<Vec<u8>, AllocError> {
    let mut seen = Vec::new(alloc);
    for file in tree.files() {
        push_all(&mut seen, &[file.path.as_slice(), file.bytes.as_slice()])?;
    }
    Ok(seen)
}

/// What a step answers.
fn answer_of(alloc: Global, tree: &mut MemoryTree, cell: &Cell) -> Result<Vec<u8>, Fail> {
    let key = cell.key.as_slice();
    if key == b"empty".as_slice() {
        Ok(shown(alloc, tree.is_empty())?)
    } else if key == b"files".as_slice() {
        Ok(all_files(alloc, tree)?)
    } else if key == b"seal".as_slice() || key == b"discard".as_slice() {
        let (path, content) = parted(&cell.value);
        let sealed = key == b"seal".as_slice();
        Ok(shown(
            alloc,
            write_one(tree, str::from_utf8(path)?, content, sealed)?,
        )?)
    } else {
        Err(unknown(key))
    }
}

/// Appends what each step answers, on a line.
fn push_answers(
    alloc: Global,
    came: &mut Vec<u8>,
    tree: &mut MemoryTree,
    steps: &[Cell],
) -> Result<(), Fail> {
    for step in steps {
        let answer = answer_of(alloc, tree, step)?;
        push_all(came, &[&answer, b"\n"])?;
    }
    Ok(())
}

/// Whether the question fails, and the steps.
fn steps_of(cells: &[Cell]) -> (bool, &[Cell]) {
    match cells {
        [first, steps @ ..] => {
            if first.key.as_slice() == b"broken".as_slice() {
                (true, steps)
            } else {
                (false, cells)
            }
        }
        [] => (false, cells),
    }
}

/// What comes of a case of the kind `worktree`.
pub fn grown(alloc: Global, cells: &[Cell]) -> Result<Vec<u8>, Fail> {
    let (is_broken, steps) = steps_of(cells);
    let mut tree = MemoryTree::new(alloc, true, Vec::new(alloc), is_broken);
    let mut came = Vec::new(alloc);
    push_answers(alloc, &mut came, &mut tree, steps)?;
    Ok(came)
}
