//! Journals: what the words get, and the journal of a checkout.
ghost use Rattle.checkout_engine.specs.Checkout.{AllWhole};

use case_kit::{Cell, Words, found, number_of};
use checkout_engine::{Checkout, run_words};
use checkout_paths::Means;
use edge_kit::{Blob, MemoryBlob, MemoryRepo, MemorySink, Repo, RepoFail};
use engine_world::{Case, Watch, World, case_of, words_of, world_of};
use journal_run::{journal_run, print_journal};
use std::alloc::{AllocError, Global};
use std::string::String;
use std::sync::Wait;
use std::test::Fail;
use std::thread::Threads;

/// What is asked: the words, the file, whether it can't be read, and the write of the answer that fails.
#[derive(Drop)]
struct Asked {
    words: Vec<u8>,
    file: Option<Vec<u8>>,
    is_failing: bool,
    sink_fails: Option<u32>,
    is_audited: bool,
}

/// An audit of this file.
fn audit_of(alloc: Global, file: Option<Vec<u8>>) -> Result<Asked, AllocError> {
    Ok(Asked {
        words: Vec::from_slice(alloc, b"R T audit")?,
        file,
        is_failing: false,
        sink_fails: None,
        is_audited: false,
    })
}

/// The file in memory.
fn blob_of(alloc: Global, asked: &Asked) -> Result<MemoryBlob, AllocError> {
    let name = [0; 20];
    let mut objects = Vec::new(alloc);
    let mut fails = Vec::new(alloc);
    if asked.is_failing {
        fails.push(RepoFail::Object(name))?;
    }
    if let Some(file) = &asked.file {
        objects.push((name, Vec::from_slice(alloc, file)?))?;
    }
    MemoryRepo::new(alloc, None, None, None, objects, fails).blob(&name)
}

/// The status and the answer.
fn answered<H: Threads + Wait + Sync>(
    rt: &H,
    alloc: Global,
    asked: &Asked,
) -> Result<(u8, Vec<u8>), Fail> {
    let words = words_of(alloc, &asked.words)?;
    let mut blob = blob_of(alloc, asked)?;
    let mut sink = MemorySink::new(alloc, asked.sink_fails);
    let status = journal_run(rt, alloc, &words, &mut blob, &Watch::new(), &mut sink);
    Ok((status, Vec::from_slice(alloc, sink.bytes())?))
}

/// What a cell says of a question.
#[derive(Clone, Copy)]
enum Word {
    Words,
    File,
    Failing,
    Sink,
    Audited,
}

const WORDS: Words<Word> = &[
    (b"words", Word::Words),
    (b"file", Word::File),
    (b"failing", Word::Failing),
    (b"sink", Word::Sink),
    (b"audited", Word::Audited),
];

/// Takes what a cell says of a question.
fn take(alloc: Global, asked: &mut Asked, cell: &Cell) -> Result<(), Fail> {
    match found(WORDS, &cell.key)? {
        Word::Words => asked.words = Vec::from_slice(alloc, &cell.value)?,
        Word::File => asked.file = Some(Vec::from_slice(alloc, &cell.value)?),
        Word::Failing => asked.is_failing = true,
        Word::Sink => asked.sink_fails = Some(number_of(&cell.value)?),
        Word::Audited => asked.is_audited = true,
    }
    Ok(())
}

/// What the cells ask.
fn asked_of(alloc: Global, cells: &[Cell]) -> Result<Asked, Fail> {
    let mut asked = audit_of(alloc, None)?;
    take_all(alloc, &mut asked, cells)?;
    Ok(asked)
}

/// Takes what each cell says of a question.
fn take_all(alloc: Global, asked: &mut Asked, cells: &[Cell]) -> Result<(), Fail> {
    for cell in cells {
        take(alloc, asked, cell)?;
    }
    Ok(())
}

/// Appends whether an audit finds that a journal is legal and whole.
fn push_judged<H: Threads + Wait + Sync>(
    rt: &H,
    alloc: Global,
    seen: &mut String,
    journal: Vec<u8>,
) -> Result<(), Fail> {
    let (judged, said) = answered(rt, alloc, &audit_of(alloc, Some(journal))?)?;
    let said = str::from_utf8(&said)?;
    let is_legal = judged == 0 && said.starts_with("legal ") && said.ends_with(" 0\n");
    writeln!(seen, "legal {is_legal}")?;
    Ok(())
}

/// The status and the answer to these cells: `words`, all of them; `file`, if there is one, and `failing`, if it can't
/// be read; `sink`, the write that fails. With `audited`, whether an audit finds that the answer is a journal that is
/// legal and whole stands in its place.
pub fn journal_of<H: Threads + Wait + Sync>(
    rt: &H,
    alloc: Global,
    cells: &[Cell],
) -> Result<String, Fail> {
    let asked = asked_of(alloc, cells)?;
    let (status, text) = answered(rt, alloc, &asked)?;
    let mut seen = String::new(alloc);
    writeln!(seen, "status {status}")?;
    if asked.is_audited {
        push_judged(rt, alloc, &mut seen, text)?;
    } else {
        seen.push_str(str::from_utf8(&text)?)?;
    }
    Ok(seen)
}

/// The first line of a journal of so many events, whether its checkout came to its end, and whether an audit finds that
/// all the events are legal and the journal whole.
fn judged<H: Threads + Wait + Sync>(
    rt: &H,
    alloc: Global,
    status: u8,
    events: usize,
    journal: Vec<u8>,
) -> Result<String, Fail> {
    let head = str::from_utf8(&journal)?.lines().next().ok_or("no line")?;
    let mut seen = String::from_str(alloc, head)?;
    let (_, said) = answered(rt, alloc, &audit_of(alloc, Some(journal))?)?;
    let all = format!(in alloc; "legal {events} 0\n")?;
    let is_legal = said.as_slice() == all.as_bytes();
    writeln!(seen, " over {} legal {is_legal}", status < 2)?;
    Ok(seen)
}

/// What is said of the journal of a checkout that ended so, if it is done.
fn checkout_judged<H: Threads + Wait + Sync>(
    rt: &H,
    alloc: Global,
    status: u8,
    end: &Option<Checkout>,
) -> Result<String, Fail>
    requires { AllWhole end.now }
{
    match end {
        Some(Checkout::Done(run)) => {
            let journal = print_journal(alloc, run)?;
            judged(rt, alloc, status, run.history.len(), journal)
        }
        _ => Ok(String::from_str(alloc, "no run\n")?),
    }
}

/// What is said of the journal of a case's checkout over what it is made over, if it is done.
fn case_judged<H: Threads + Wait + Sync>(
    rt: &H,
    alloc: Global,
    case: &Case,
    world: &mut World,
) -> Result<String, Fail> {
    let means = Means {
        rt,
        alloc,
        gate: &case.gate,
    };
    let ended = run_words(
        &means,
        &case.words,
        &mut world.repo,
        &mut world.tree,
        &mut world.spawner,
        &mut world.out,
    );
    checkout_judged(rt, alloc, ended.status.number(), &ended.checkout)
}

/// What is said of the journal of a case's checkout, if it is done.
fn case_recorded<H: Threads + Wait + Sync>(
    rt: &H,
    alloc: Global,
    case: &mut Case,
) -> Result<String, Fail> {
    let mut world = world_of(alloc, case)?;
    case_judged(rt, alloc, case, &mut world)
}

/// What is said of the journal of these cells' checkout, if it is done.
pub fn recorded<H: Threads + Wait + Sync>(
    rt: &H,
    alloc: Global,
    cells: &[Cell],
) -> Result<String, Fail> {
    let mut case = case_of(alloc, cells, b"")?;
    case_recorded(rt, alloc, &mut case)
}
