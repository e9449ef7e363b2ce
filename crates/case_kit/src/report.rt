use crate::block::{Block, blocks_of};
use crate::text::push_all;
use std::alloc::{AllocError, Global};
use std::io::Write;
use std::test::Fail;
use std::{env, fs, io};

/// The kinds of cases that a program knows.
pub trait Cases {
    /// What comes of a block, or the error of a kind or cell that isn't known.
    fn came_of(&self, alloc: Global, block: &Block) -> Result<Vec<u8>, Fail>;
}

/// The error of a block that says nothing of what is wanted.
fn wantless(block: &Block) -> Fail {
    Fail::new(format_args!("nothing is wanted of `{}`", block.name.escape_ascii()))
}

/// `ok` and the block's name, or both texts where another than the wanted one came.
fn verdict_on(alloc: Global, block: &Block, came: &[u8]) -> Result<Vec<u8>, Fail> {
    let Some(wanted) = &block.wanted else {
        return Err(wantless(block));
    };
    if came == wanted.as_slice() {
        let mut line = Vec::new(alloc);
        push_all(&mut line, &[b"ok ", &block.name, b"\n"])?;
        return Ok(line);
    }
    let text = format!(in alloc;
        "{}\n wanted {}\n came {}\n",
        block.name.escape_ascii(),
        wanted.escape_ascii(),
        came.escape_ascii()
    )?;
    Ok(Vec::from_slice(alloc, text.as_bytes())?)
}

/// Prints the verdict on a block of which this came.
pub fn print_verdict(rt: HostRuntime, block: &Block, came: &[u8]) -> Result<(), Fail> {
    let line = verdict_on(rt.alloc(), block, came)?;
    io::writer(&rt).write_all(&line)?;
    Ok(())
}

/// The blocks of each file that an argument of the program names.
pub fn named_blocks(rt: HostRuntime) -> Result<Vec<Block>, Fail> {
    let mut blocks = Vec::new(rt.alloc());
    let mut words = env::args(&rt)?;
    let _program = words.next();
    for word in words {
        let file = fs::read(&rt, word.as_str())?;
        blocks.append(&mut blocks_of(rt.alloc(), &file)?)?;
    }
    Ok(blocks)
}

/// Prints the verdicts on the blocks of each file that an argument of the program names.
pub fn report_files<C: Cases>(rt: HostRuntime, cases: &C) -> Result<(), Fail> {
    for block in named_blocks(rt)?.as_slice() {
        let came = cases.came_of(rt.alloc(), block)?;
        print_verdict(rt, block, &came)?;
    }
    Ok(())
}
