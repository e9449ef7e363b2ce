//! The attribute files of the folders, each found by its folder.
ghost use Rattle.std.specs.Prelude.{◌≡◌, IfOk};
ghost use Rattle.std.specs.Option.{option_map};
ghost use Rattle.attr_stack.specs.Levels.{place_in, file_in, ArePlaces};
ghost use Rattle.attr_stack.specs.Pairs.{file_of};

use crate::files::FileAt;
use attr_line::AttrContent;
use byte_path::Items;
use std::alloc::{AllocError, Global};
use std::collections::BTreeMap;
use std::marker::Model;

/// The place of each folder's file.
type Places = BTreeMap<Vec<u8>, usize>;

/// The place of each folder's file. Of two files of one folder the first counts.
fn places_of(alloc: Global, files: &[FileAt]) -> Result<Places, AllocError>
    ensures { IfOk result (λ places. ArePlaces places files.now) }
{
    let mut places = BTreeMap::new(alloc);
    let mut rest = files;
    while let Some((at, before)) = rest.split_last() {
        let folder = Vec::from_slice(alloc, at.folder.as_slice())?;
        places.insert(folder, before.len())?;
        rest = before;
    }
    Ok(places)
}

/// The place of a folder's file.
fn place_of(places: &Places, folder: &[u8]) -> Option<usize>
    ensures { result ≡ place_in places.now folder.now }
{
    match places.get(folder) {
        Some(place) => Some(*place),
        None => None,
    }
}

/// The file at a place.
fn file_in(files: &[FileAt], place: Option<usize>) -> Option<&AttrContent>
    ensures { option_map (λ x. x.now) result ≡ file_in files.now place }
{
    match files.get(place?) {
        Some(at) => Some(&at.file),
        None => None,
    }
}

/// The attribute files of the folders, which contracts see as a list.
#[derive(Drop)]
pub struct FileFolders {
    files: Items<FileAt>,
    places: Places,
}

impl Model for FileFolders {
    ghost use Rattle.std.specs.Prelude.{List};
    ghost use Rattle.attr_stack.specs.declared.files.FileAt.{FileAt};
    ghost use Rattle.attr_stack.specs.Levels.{ArePlaces};

    ghost Value = { List FileAt };

    ghost view = { λ f. f.files };

    ghost invariant = { λ f. ArePlaces f.places f.files };
}

impl FileFolders {
    pub fn of(alloc: Global, files: Items<FileAt>) -> Result<FileFolders, AllocError>
        ensures { IfOk result (λ folders. folders ≡ files) }
    {
        let places = places_of(alloc, files.as_slice())?;
        Ok(FileFolders { files, places })
    }

    /// The file of a folder.
    pub fn find(&self, folder: &[u8]) -> Option<&AttrContent>
        ensures { option_map (λ x. x.now) result ≡ file_of self.now folder.now }
    {
        file_in(self.files.as_slice(), place_of(&self.places, folder))
    }
}
