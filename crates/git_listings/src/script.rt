//! The answers to a script of attribute files and paths.
//!
//! Each line of a script is one of these, and any other is ignored:
//!
//! - `info`, `base`, `top` or `in FOLDER` begins `info/attributes`, the user's file, or the attribute file of a folder,
//!   in any order;
//! - a TAB and a line of the file that was begun last;
//! - `names` and the names to ask for, with one space before each. The files are read here;
//! - `of PATH` asks for the names' states;
//! - `end` forgets the files and the names.
ghost use Rattle.std.specs.Prelude.{◌≡◌, ◌++◌, IfOk, OnOk};
ghost use Rattle.std.specs.List.{flat_map};
ghost use Rattle.git_listings.specs.Drafts.{files_at, files_of};

use crate::answer::answer_with;
use attr_line::{AttrContent, AttrFile, read_attributes};
use attr_stack::{AttrFiles, AttrStack, FileAt, attributes_of};
use byte_path::{Bytes, Items};
use case_kit::{Words, meant, push_all};
use std::alloc::{AllocError, Global};

/// Where an attribute file stands.
#[derive(Drop)]
enum Place {
    /// `info/attributes`.
    Info,
    /// The system's and the user's files as one.
    Base,
    Folder(Bytes),
}

/// The text of an attribute file.
#[derive(Drop)]
struct Draft {
    place: Place,
    text: Vec<u8>,
}

/// The files and the names with which paths are asked for.
#[derive(Drop)]
struct Question {
    stack: AttrStack,
    /// The files again, if each answer is compared with theirs.
    again: Option<AttrFiles>,
    names: Vec<Bytes>,
}

/// What was read, and what was answered.
#[derive(Drop)]
pub struct Script {
    drafts: Vec<Draft>,
    question: Option<Question>,
    answers: Vec<u8>,
    is_compared: bool,
}

/// A line without a path or a text.
#[derive(Clone, Copy)]
enum Line {
    Top,
    Info,
    Base,
    End,
}

const LINES: Words<Line> = &[
    (b"top", Line::Top),
    (b"info", Line::Info),
    (b"base", Line::Base),
    (b"end", Line::End),
];

/// Adds the file of a draft, if it is a folder's.
fn push_file(alloc: Global, files: &mut Vec<FileAt>, draft: &Draft) -> Result<(), AllocError>
    ensures { OnOk result (files.new.items ≡ files.old.items ++ files_at draft.now.text.items draft.now.place) }
{
    let Place::Folder(folder) = &draft.place else {
        return Ok(());
    };
    let folder = Bytes::copy_of(alloc, folder.as_slice())?;
    let text = Bytes::copy_of(alloc, &draft.text)?;
    let file = AttrContent::of(alloc, text, folder.as_slice().is_empty())?;
    files.push(FileAt { folder, file })?;
    Ok(())
}

/// The files of the folders, in the order of the drafts.
fn folders_of(alloc: Global, drafts: &[Draft]) -> Result<Items<FileAt>, AllocError>
    ensures { IfOk result (λ files. files ≡ flat_map files_of drafts.now) }
{
    let mut files = Vec::new(alloc);
    for draft in drafts {
        push_file(alloc, &mut files, draft)?;
    }
    Ok(Items::from_vec(files))
}

/// The file of the last draft, or an empty one.
fn last_of(alloc: Global, draft: Option<&Draft>) -> Result<AttrFile, AllocError> {
    match draft {
        Some(draft) => read_attributes(alloc, &draft.text, true),
        None => read_attributes(alloc, b"", true),
    }
}

/// The files of the drafts.
fn all_of(alloc: Global, drafts: &[Draft]) -> Result<AttrFiles, AllocError> {
    let info = drafts
        .iter()
        .rev()
        .find(|draft| matches!(draft.place, Place::Info));
    let base = drafts
        .iter()
        .rev()
        .find(|draft| matches!(draft.place, Place::Base));
    Ok(AttrFiles {
        info: last_of(alloc, info)?,
        base: last_of(alloc, base)?,
        files: folders_of(alloc, drafts)?,
    })
}

fn names_of(alloc: Global, text: &[u8]) -> Result<Vec<Bytes>, AllocError> {
    let mut names = Vec::new(alloc);
    for name in text.split(|byte| *byte == b' ') {
        names.push(Bytes::copy_of(alloc, name)?)?;
    }
    Ok(names)
}

/// The answer of the files for a path without a stack.
fn answer_alone(
    alloc: Global,
    files: &AttrFiles,
    path: &[u8],
    names: &[Bytes],
) -> Result<Vec<u8>, AllocError> {
    let states = attributes_of(alloc, files, path, names)?;
    answer_with(alloc, path, names, states.as_slice())
}

/// Adds the answer for a path.
fn push_asked(
    alloc: Global,
    answers: &mut Vec<u8>,
    question: &mut Question,
    path: &[u8],
) -> Result<(), AllocError> {
    let names = question.names.as_slice();
    let states = question.stack.states(path, names)?;
    let text = answer_with(alloc, path, names, states.as_slice())?;
    answers.extend_from_slice(&text)?;
    match &question.again {
        Some(files) => {
            let alone = answer_alone(alloc, files, path, names)?;
            push_other(answers, &text, &alone)
        }
        None => Ok(()),
    }
}

/// Adds an answer after another one from which it differs.
fn push_other(answers: &mut Vec<u8>, text: &[u8], alone: &[u8]) -> Result<(), AllocError> {
    if alone == text {
        return Ok(());
    }
    push_all(answers, &[b"but without a stack\n", alone])
}

/// The files of the drafts, if they are wanted again.
fn again_of(
    alloc: Global,
    drafts: &[Draft],
    is_wanted: bool,
) -> Result<Option<AttrFiles>, AllocError> {
    if !is_wanted {
        return Ok(None);
    }
    Ok(Some(all_of(alloc, drafts)?))
}

/// A stack over the files of the drafts.
fn stack_of(alloc: Global, drafts: &[Draft]) -> Result<AttrStack, AllocError> {
    AttrStack::begin(alloc, all_of(alloc, drafts)?)
}

/// What paths are asked for with, over the files of the drafts.
fn question_of(
    alloc: Global,
    drafts: &[Draft],
    names: &[u8],
    is_compared: bool,
) -> Result<Question, AllocError> {
    let names = names_of(alloc, names)?;
    let again = again_of(alloc, drafts, is_compared)?;
    let stack = stack_of(alloc, drafts)?;
    Ok(Question {
        stack,
        again,
        names,
    })
}

/// Puts another value in place of one.
fn put<T: Drop>(place: &mut T, value: T) {
    *place = value;
}

impl Script {
    fn new(alloc: Global, is_compared: bool) -> Script {
        Script {
            drafts: Vec::new(alloc),
            question: None,
            answers: Vec::new(alloc),
            is_compared,
        }
    }

    fn begin(&mut self, alloc: Global, place: Place) -> Result<(), AllocError> {
        let text = Vec::new(alloc);
        self.drafts.push(Draft { place, text })?;
        Ok(())
    }

    fn begin_folder(&mut self, alloc: Global, folder: &[u8]) -> Result<(), AllocError> {
        let folder = Bytes::copy_of(alloc, folder)?;
        self.begin(alloc, Place::Folder(folder))
    }

    fn add(&mut self, line: &[u8]) -> Result<(), AllocError> {
        if let Some(draft) = self.drafts.last_mut() {
            draft.text.extend_from_slice(line)?;
            draft.text.push(b'\n')?;
        }
        Ok(())
    }

    fn ask(&mut self, alloc: Global, names: &[u8]) -> Result<(), AllocError> {
        let question = question_of(alloc, self.drafts.as_slice(), names, self.is_compared)?;
        put(&mut self.question, Some(question));
        Ok(())
    }

    fn answer(&mut self, alloc: Global, path: &[u8]) -> Result<(), AllocError> {
        match &mut self.question {
            Some(question) => push_asked(alloc, &mut self.answers, question, path),
            None => Ok(()),
        }
    }

    fn forget(&mut self) {
        self.drafts.clear();
        put(&mut self.question, None);
    }

    /// Does what a line without a path or a text says.
    fn take_word(&mut self, alloc: Global, line: Option<Line>) -> Result<(), AllocError> {
        match line {
            Some(Line::Top) => self.begin_folder(alloc, b""),
            Some(Line::Info) => self.begin(alloc, Place::Info),
            Some(Line::Base) => self.begin(alloc, Place::Base),
            Some(Line::End) => {
                self.forget();
                Ok(())
            }
            None => Ok(()),
        }
    }

    /// Does what a line says.
    fn take(&mut self, alloc: Global, line: &[u8]) -> Result<(), AllocError> {
        if let Some(text) = line.strip_prefix(b"\t".as_slice()) {
            self.add(text)
        } else if let Some(path) = line.strip_prefix(b"of ".as_slice()) {
            self.answer(alloc, path)
        } else if let Some(folder) = line.strip_prefix(b"in ".as_slice()) {
            self.begin_folder(alloc, folder)
        } else if let Some(names) = line.strip_prefix(b"names ".as_slice()) {
            self.ask(alloc, names)
        } else {
            self.take_word(alloc, meant(LINES, line))
        }
    }

    /// Does what each line says.
    fn take_all(&mut self, alloc: Global, text: &[u8]) -> Result<(), AllocError> {
        for line in text.split(|byte| *byte == b'\n') {
            self.take(alloc, line)?;
        }
        Ok(())
    }

    /// What was answered.
    fn into_answers(self) -> Vec<u8> {
        self.answers
    }
}

/// The answers to a script as `git check-attr` gives them, each compared with that of the files without a stack if this
/// is wanted.
pub fn answered(alloc: Global, text: &[u8], is_compared: bool) -> Result<Vec<u8>, AllocError> {
    let mut script = Script::new(alloc, is_compared);
    script.take_all(alloc, text)?;
    Ok(script.into_answers())
}
