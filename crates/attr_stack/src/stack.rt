//! The attribute files of a repository, for one path after another.
ghost use Rattle.std.specs.Prelude.{◌≡◌, ◌<◌, ℕ, true, List, [], IfOk, OnOk, map, reverse};
ghost use Rattle.std.specs.Prelude.{drop, get_or, length};
ghost use Rattle.std.specs.List.{flat_map};
ghost use Rattle.attr_stack.specs.Decided.{decision, state_of};
ghost use Rattle.attr_stack.specs.Levels.{level_pairs, StandsIn};
ghost use Rattle.attr_stack.specs.Pairs.{file_pairs};
ghost use Rattle.attr_stack.specs.Seen.{state_at};
ghost use Rattle.attr_stack.specs.Search.{is_asked, Reads};
ghost use Rattle.attr_stack.specs.Rules.{files_of, IsRules, IsStack};

use crate::chain::{Chain, Level};
use crate::compiled_file::CompiledFile;
use crate::decide::is_done;
use crate::files::AttrFiles;
use crate::folders::FileFolders;
use crate::linked_macros::{Frame, LinkedMacros};
use crate::macros::macros_of;
use crate::noted::States;
use crate::states::states_in;
use attr_line::AttrState;
use byte_path::Bytes;
use std::alloc::{AllocError, Global};
use std::marker::Model;
use wild_match::last_part;

/// What the attribute files say, as it is looked up for each path.
#[derive(Drop)]
pub struct Rules {
    pub info: CompiledFile,
    pub base: CompiledFile,
    pub folders: FileFolders,
    pub macros: LinkedMacros,
}

fn rules_of(alloc: Global, files: AttrFiles) -> Result<Rules, AllocError>
    ensures files { IfOk result (λ rules. files_of rules ≡ files) }
    ensures rules { IfOk result IsRules }
{
    let macros = LinkedMacros::of(alloc, macros_of(alloc, &files)?)?;
    let AttrFiles { info, base, files } = files;
    let info = CompiledFile::of(alloc, info)?;
    let base = CompiledFile::of(alloc, base)?;
    let folders = FileFolders::of(alloc, files)?;
    Ok(Rules {
        info,
        base,
        folders,
        macros,
    })
}

/// What stands after this many bytes of a path.
fn behind(path: &[u8], len: usize) -> &[u8]
    ensures { result.now ≡ drop len path.now }
{
    if path.len() <= len {
        return &[];
    }
    let (_, inner) = path.split_at(len);
    inner
}

/// Notes what one file decides for a path.
fn read_level<'a>(
    names: &[Bytes],
    states: &mut States<'a>,
    frames: &mut Vec<Frame>,
    level: &'a Level,
    path: &[u8],
) -> Result<(), AllocError>
    ensures { OnOk result (Reads names.now (level_pairs path.now level.now)
        states.old.decided [] states.new.decided) }
{
    level
        .file
        .read(names, states, frames, behind(path, level.start))
}

fn level_at(levels: &[Level], place: usize) -> &Level
    requires { place < length levels.now }
    ensures { result.now ≡ get_or levels.now place result.now }
{
    &levels[place]
}

/// Notes what these files decide for a path, from the last on. It stops once all names are decided.
fn read_levels<'a>(
    names: &[Bytes],
    states: &mut States<'a>,
    frames: &mut Vec<Frame>,
    levels: &'a [Level],
    path: &[u8],
) -> Result<(), AllocError>
    ensures { OnOk result (Reads names.now (flat_map (level_pairs path.now) (reverse levels.now))
        states.old.decided [] states.new.decided) }
{
    for place in (0..levels.len()).rev() {
        if is_done(names, states) {
            return Ok(());
        }
        read_level(names, states, frames, level_at(levels, place), path)?;
    }
    Ok(())
}

/// Notes what the lowest file decides for a path, if a name is left.
fn read_base<'a>(
    names: &[Bytes],
    states: &mut States<'a>,
    frames: &mut Vec<Frame>,
    base: &'a CompiledFile,
    path: &[u8],
) -> Result<(), AllocError>
    ensures { OnOk result (Reads names.now (file_pairs path.now base.now)
        states.old.decided [] states.new.decided) }
{
    if is_done(names, states) {
        return Ok(());
    }
    base.read(names, states, frames, path)
}

/// What is decided of some names for a path of the chain's folder.
fn decided_of<'a>(
    alloc: Global,
    rules: &'a Rules,
    chain: &'a Chain,
    path: &[u8],
    names: &[Bytes],
) -> Result<States<'a>, AllocError>
    requires stack { IsStack rules.now chain.now }
    requires within { StandsIn path.now chain.now.folder.items }
    ensures { IfOk result (λ states. (name : List ℕ) → is_asked names.now name ≡ true
        → state_at states.decided name ≡ decision (files_of rules.now) path.now name) }
{
    let mut states = States::new(alloc, &rules.macros)?;
    let mut frames = Vec::new(alloc);
    rules.info.read(names, &mut states, &mut frames, path)?;
    read_levels(names, &mut states, &mut frames, &chain.levels, path)?;
    read_base(names, &mut states, &mut frames, &rules.base, path)?;
    Ok(states)
}

/// The folder of a path, with the `/` at its end.
fn folder_of(path: &[u8]) -> &[u8]
    ensures { StandsIn path.now result.now }
{
    let name = last_part(path);
    let (folder, _) = path.split_at(path.len() - name.len());
    folder
}

/// The attribute files of a repository, which contracts see as they were read.
///
/// Of the folders' files only those are open that reach the paths of the folder it was asked about last. It looks at
/// each pattern of an open file once.
#[derive(Drop)]
pub struct AttrStack {
    alloc: Global,
    rules: Rules,
    chain: Chain,
}

impl Model for AttrStack {
    ghost use Rattle.attr_stack.specs.declared.files.AttrFiles.{AttrFiles};
    ghost use Rattle.attr_stack.specs.Rules.{files_of, IsStack};

    ghost Value = { AttrFiles };

    ghost view = { λ s. files_of s.rules };

    ghost invariant = { λ s. IsStack s.rules s.chain };
}

impl AttrStack {
    /// Looks at the files once, for many paths.
    pub fn begin(alloc: Global, files: AttrFiles) -> Result<AttrStack, AllocError>
        ensures { IfOk result (λ stack. stack ≡ files) }
    {
        let rules = rules_of(alloc, files)?;
        let chain = Chain::of_top(alloc, &rules.folders)?;
        Ok(AttrStack {
            alloc,
            rules,
            chain,
        })
    }

    /// The answer of `attributes_of` for these files. A folder's file is opened where a path in that folder follows one
    /// outside it. So paths may come in any order, and in an index's order each file is opened once. After out of
    /// memory it gives right answers all the same.
    pub fn states(&mut self, path: &[u8], names: &[Bytes]) -> Result<Vec<AttrState>, AllocError>
        ensures kept { self.new ≡ self.old }
        ensures states { IfOk result (λ states. states.items ≡ map (state_of self.old path.now) names.now) }
    {
        let alloc = self.alloc;
        self.chain
            .enter(alloc, &self.rules.folders, folder_of(path))?;
        let decided = decided_of(alloc, &self.rules, &self.chain, path, names)?;
        states_in(alloc, &decided, names)
    }
}
