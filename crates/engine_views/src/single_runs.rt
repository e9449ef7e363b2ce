//! Commands that run once for each content, in memory.
use case_kit::{Block, number_of, unknown};
use edge_kit::{Failed, Link, MemorySpawner, Spawner, Starter};
use engine_world::singles_of;
use one_shot::{MemoryOnceMaker, Once, OnceMaker, OnceSpawner, once_command};
use std::alloc::{AllocError, Global};
use std::test::Fail;

/// The command for a path. The cells are the command and the path.
pub fn command_of(alloc: Global, block: &Block) -> Result<Vec<u8>, Fail> {
    let [command, path] = block.cells.as_slice() else {
        return Err(unknown(&block.form));
    };
    if block.form.as_slice() != b"command text path".as_slice() {
        return Err(unknown(&block.form));
    }
    let text = once_command(alloc, &command.value, &path.value)?;
    Ok(Vec::from_slice(alloc, text.as_slice())?)
}

/// What a single run gives. The cells are those of the single runs, and at last the command, the input and the limit.
pub fn run_of(alloc: Global, block: &Block) -> Result<Vec<u8>, Fail> {
    let [scripts @ .., command, input, limit] = block.cells.as_slice() else {
        return Err(unknown(&block.form));
    };
    let limit = number_of(&limit.value)?;
    let mut once = MemoryOnceMaker::new(alloc, singles_of(alloc, scripts)?).once()?;
    let text = match once.run_once(&command.value, &input.value, u64::from(limit)) {
        Ok(end) => format!(in alloc; "{} {}", end.zero, str::from_utf8(end.output.as_slice())?)?,
        Err(fault) => format!(in alloc; "{fault:?}")?,
    };
    Ok(Vec::from_slice(alloc, text.as_bytes())?)
}

/// Reads all that is left.
fn read_all<K: Link>(alloc: Global, link: &mut K) -> Result<Vec<u8>, AllocError> {
    let mut all = Vec::new(alloc);
    let mut piece = [0; 64];
    for _ in 0..100 {
        match link.read(&mut piece) {
            Ok(0) | Err(Failed) => return Ok(all),
            Ok(count) => {
                let (front, _) = piece.split_at(count.min(64));
                all.extend_from_slice(front)?;
            }
        }
    }
    Ok(all)
}

/// What a host answers to what it is sent.
fn answer_to<K: Link>(alloc: Global, link: &mut K, sent: &[u8]) -> Result<Vec<u8>, AllocError> {
    let is_sent = link.send(sent).is_ok();
    let mut answer = read_all(alloc, link)?;
    if !is_sent {
        answer.extend_from_slice(b" not sent")?;
    }
    Ok(answer)
}

/// What a started host answers, if it starts.
fn answer_of<S: Spawner>(
    alloc: Global,
    spawner: &mut S,
    command: &[u8],
    sent: &[u8],
) -> Result<Option<Vec<u8>>, AllocError> {
    let mut starter = spawner.starter(command)?;
    let Ok(mut link) = starter.start() else {
        spawner.take_back(starter);
        return Ok(None);
    };
    let answer = answer_to(alloc, &mut link, sent);
    starter.end(link);
    spawner.take_back(starter);
    Ok(Some(answer?))
}

/// That no host started, and how many drivers were asked for below.
fn not_started(alloc: Global, drivers: usize) -> Result<Vec<u8>, Fail> {
    let text = format!(in alloc; "not started {drivers}")?;
    Ok(Vec::from_slice(alloc, text.as_bytes())?)
}

/// What a host of this spawner answers, or that it doesn't start, and how many drivers were asked for below.
fn told_by(
    alloc: Global,
    spawner: &mut OnceSpawner<MemorySpawner, MemoryOnceMaker>,
    command: &[u8],
    sent: &[u8],
) -> Result<Vec<u8>, Fail> {
    match answer_of(alloc, spawner, command, sent)? {
        Some(answer) => Ok(answer),
        None => not_started(alloc, spawner.inner().drivers().len()),
    }
}

/// What a host answers. The cells are those of the single runs, and at last the command and what it is sent. If it
/// doesn't start, the text has how many drivers were asked for below.
pub fn host_of(alloc: Global, block: &Block) -> Result<Vec<u8>, Fail> {
    let [scripts @ .., command, sent] = block.cells.as_slice() else {
        return Err(unknown(&block.form));
    };
    let maker = MemoryOnceMaker::new(alloc, singles_of(alloc, scripts)?);
    let inner = MemorySpawner::new(alloc, Vec::new(alloc));
    let mut spawner = OnceSpawner::new(alloc, inner, maker, true);
    told_by(alloc, &mut spawner, &command.value, &sent.value)
}
