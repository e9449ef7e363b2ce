//! What becomes of each path of an index.
ghost use Rattle.std.specs.Prelude.{◌≡◌, IfOk, length};
ghost use Rattle.checkout_plan.specs.Paths.{mark_of, no_conversion, path_with, closed, converted};
ghost use Rattle.checkout_plan.specs.Paths.{file_path, text_path, link_path, path_of_mode};
ghost use Rattle.checkout_plan.specs.Paths.{asked_path, asked_paths};
ghost use Rattle.std.specs.Str.{is_utf8};
ghost use Rattle.checkout_plan.specs.Seen.{ArePlaces, IsReady, asked_names, path_by};

use crate::path_plan::PathPlan;
use crate::starts::{Places, filter_place, places_of, start_of};
use attr_line::AttrState;
use attr_stack::{AttrFiles, AttrStack};
use byte_path::Bytes;
use checkout_core::{FailCause, SkipCause, Start, Verdict};
use convert_plan::{Conversion, conversion_of};
use edge_kit::Mark;
use eol_convert::Action;
use git_index::{Entry, Mode};
use settings_view::Settings;
use std::alloc::{AllocError, Global};
use tree_encoding::UnknownEncoding;

/// Nothing is done to a content.
const NO_CONVERSION: Conversion = Conversion {
    ident: false,
    action: Action::Binary,
    encoding: None,
};

/// How the report marks a file of this mode.
fn mark_of(mode: Mode) -> Mark
    ensures { result ≡ mark_of mode }
{
    match mode {
        Mode::Plain | Mode::Gitlink => Mark::Plain,
        Mode::Executable => Mark::Executable,
        Mode::Link => Mark::LinkText,
    }
}

fn path_with(
    alloc: Global,
    entry: &Entry,
    conversion: Conversion,
    start: Start,
) -> Result<PathPlan, AllocError>
    ensures { IfOk result (λ path. path ≡ path_with entry.now conversion start) }
{
    let object = entry.name;
    Ok(PathPlan {
        path: Bytes::copy_of(alloc, entry.path.as_slice())?,
        object,
        mark: mark_of(entry.mode),
        conversion,
        start,
        driver: None,
    })
}

/// A path whose verdict stands before anything is read.
fn closed(alloc: Global, entry: &Entry, verdict: Verdict) -> Result<PathPlan, AllocError>
    ensures { IfOk result (λ path. path ≡ closed entry.now verdict) }
{
    path_with(alloc, entry, NO_CONVERSION, Start::Done(verdict))
}

/// A file by its filter and its conversion.
fn converted(
    alloc: Global,
    entry: &Entry,
    start: Start,
    conversion: Result<Conversion, UnknownEncoding>,
) -> Result<PathPlan, AllocError>
    ensures { IfOk result (λ path. path ≡ converted entry.now start conversion) }
{
    match conversion {
        Ok(conversion) => path_with(alloc, entry, conversion, start),
        Err(UnknownEncoding) => {
            closed(alloc, entry, Verdict::Failed(FailCause::UnknownEncoding))
        }
    }
}

fn is_text(path: &[u8]) -> bool
    ensures { result ≡ is_utf8 path.now }
{
    match str::from_utf8(path) {
        Ok(_) => true,
        Err(_) => false,
    }
}

/// A link's text is written as it is.
fn link_path(alloc: Global, entry: &Entry) -> Result<PathPlan, AllocError>
    ensures { IfOk result (λ path. path ≡ link_path entry.now) }
{
    if is_text(entry.path.as_slice()) {
        path_with(alloc, entry, NO_CONVERSION, Start::Pool)
    } else {
        closed(alloc, entry, Verdict::Failed(FailCause::NameNotText))
    }
}

/// The attributes that are looked up for a file, that of its filter last.
fn asked_names(alloc: Global) -> Result<Vec<Bytes>, AllocError>
    ensures { IfOk result (λ names. names.items ≡ asked_names) }
{
    let mut names = Vec::with_capacity(alloc, 6)?;
    names.push(Bytes::copy_of(alloc, b"text")?)?;
    names.push(Bytes::copy_of(alloc, b"crlf")?)?;
    names.push(Bytes::copy_of(alloc, b"eol")?)?;
    names.push(Bytes::copy_of(alloc, b"ident")?)?;
    names.push(Bytes::copy_of(alloc, b"working-tree-encoding")?)?;
    names.push(Bytes::copy_of(alloc, b"filter")?)?;
    Ok(names)
}

/// What decides about the paths of an index.
#[derive(Drop)]
struct Asking<'a> {
    stack: AttrStack,
    settings: &'a Settings,
    /// The attributes, that of the filter last.
    names: Vec<Bytes>,
    places: Places<'a>,
}

/// A file by the states of its attributes.
fn path_by(
    alloc: Global,
    settings: &Settings,
    places: &Places<'_>,
    entry: &Entry,
    states: &[AttrState],
) -> Result<PathPlan, AllocError>
    requires places { ArePlaces places.now settings.now.drivers }
    requires six { length states.now ≡ 6 }
    ensures { IfOk result (λ path. path ≡ path_by settings.now entry.now states.now) }
{
    let (five, _) = states.split_at(5);
    let driver = filter_place(places, &states[5]);
    let start = start_of(settings.drivers.as_slice(), driver);
    let conversion = conversion_of(five, settings.autocrlf, settings.eol);
    let mut path = converted(alloc, entry, start, conversion)?;
    path.driver = driver;
    Ok(path)
}

impl<'a> Asking<'a> {
    fn new(
        alloc: Global,
        files: AttrFiles,
        settings: &'a Settings,
    ) -> Result<Asking<'a>, AllocError>
        ensures ready { IfOk result IsReady }
        ensures files { IfOk result (λ asking. asking.stack ≡ files) }
        ensures settings { IfOk result (λ asking. asking.settings.now ≡ settings.now) }
    {
        Ok(Asking {
            stack: AttrStack::begin(alloc, files)?,
            settings,
            names: asked_names(alloc)?,
            places: places_of(alloc, settings.drivers.as_slice())?,
        })
    }

    /// A file by its attributes.
    fn file_path(&mut self, alloc: Global, entry: &Entry) -> Result<PathPlan, AllocError>
        requires { IsReady self.old }
        ensures kept { self.new ≡ self.old }
        ensures path { IfOk result (λ path. path ≡ file_path self.old.stack self.old.settings.now entry.now) }
    {
        let path = entry.path.as_slice();
        let states = self.stack.states(path, &self.names)?;
        path_by(alloc, self.settings, &self.places, entry, &states)
    }

    /// A path that isn't UTF-8 has no file.
    fn text_path(&mut self, alloc: Global, entry: &Entry) -> Result<PathPlan, AllocError>
        requires { IsReady self.old }
        ensures kept { self.new ≡ self.old }
        ensures path { IfOk result (λ path. path ≡ text_path self.old.stack self.old.settings.now entry.now) }
    {
        if is_text(entry.path.as_slice()) {
            self.file_path(alloc, entry)
        } else {
            closed(alloc, entry, Verdict::Failed(FailCause::NameNotText))
        }
    }

    /// The path of an entry with the lowest stage, with its driver numbered among all those of the settings.
    fn asked_path(&mut self, alloc: Global, entry: &Entry) -> Result<PathPlan, AllocError>
        requires { IsReady self.old }
        ensures kept { self.new ≡ self.old }
        ensures path { IfOk result (λ path. path ≡ asked_path self.old.stack self.old.settings.now entry.now) }
    {
        if entry.stage != 0 {
            return closed(alloc, entry, Verdict::Skipped(SkipCause::Unmerged));
        }
        match entry.mode {
            Mode::Gitlink => closed(alloc, entry, Verdict::Skipped(SkipCause::Gitlink)),
            _ if entry.sparse => closed(alloc, entry, Verdict::Skipped(SkipCause::Sparse)),
            _ if entry.intent => closed(alloc, entry, Verdict::Skipped(SkipCause::Intent)),
            Mode::Plain | Mode::Executable => self.text_path(alloc, entry),
            Mode::Link => link_path(alloc, entry),
        }
    }

    /// One path for each distinct path of an index, in order.
    fn asked_paths(&mut self, alloc: Global, entries: &[Entry]) -> Result<Vec<PathPlan>, AllocError>
        requires { IsReady self.old }
        ensures { IfOk result (λ paths. paths.items
            ≡ asked_paths self.old.stack self.old.settings.now entries.now) }
    {
        let mut paths = Vec::new(alloc);
        let mut before: &[u8] = &[];
        for entry in entries {
            let path = entry.path.as_slice();
            if path != before {
                paths.push(self.asked_path(alloc, entry)?)?;
                before = path;
            }
        }
        Ok(paths)
    }
}

/// The paths of an index, if these attribute files reach them.
pub fn asked_paths(
    alloc: Global,
    files: AttrFiles,
    settings: &Settings,
    entries: &[Entry],
) -> Result<Vec<PathPlan>, AllocError>
    ensures { IfOk result (λ paths. paths.items ≡ asked_paths files settings.now entries.now) }
{
    let mut asking = Asking::new(alloc, files, settings)?;
    asking.asked_paths(alloc, entries)
}
