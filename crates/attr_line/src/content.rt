//! The content of an attribute file, whose rows are read where they are needed.
ghost use Rattle.std.specs.Prelude.{◌≡◌, IfOk};
ghost use Rattle.attr_line.specs.File.{attributes_at};

use crate::file::{AttrFile, Skipped};
use crate::reader::read_attributes;
use byte_path::Bytes;
use std::alloc::{AllocError, Global};
use std::marker::Model;

/// An attribute file in the memory of its content, which contracts see as it is read.
///
/// Rows take many times the memory of their lines, so that whoever has many files opens few of them at once.
#[derive(Drop)]
pub struct AttrContent {
    bytes: Bytes,
    top: bool,
    skipped: Skipped,
}

impl Model for AttrContent {
    ghost use Rattle.std.specs.Prelude.{◌≡◌};
    ghost use Rattle.attr_line.specs.declared.file.AttrFile.{AttrFile};
    ghost use Rattle.attr_line.specs.File.{attributes_at};

    ghost Value = { AttrFile };

    ghost view = { λ c. attributes_at c.bytes c.top };

    ghost invariant = { λ c. c.skipped ≡ (attributes_at c.bytes c.top).skipped };
}

impl AttrContent {
    /// The file with this content, as `read_attributes` reads it. It is read once here, to count the skipped lines.
    pub fn of(alloc: Global, bytes: Bytes, top: bool) -> Result<AttrContent, AllocError>
        ensures { IfOk result (λ content. content ≡ attributes_at bytes top) }
    {
        let skipped = read_attributes(alloc, bytes.as_slice(), top)?.skipped;
        Ok(AttrContent {
            bytes,
            top,
            skipped,
        })
    }

    /// How many lines are skipped. It reads nothing.
    pub fn skipped(&self) -> Skipped
        ensures { result ≡ self.now.skipped }
    {
        self.skipped
    }

    /// The rows, read anew at each call in time linear in the content.
    pub fn open(&self, alloc: Global) -> Result<AttrFile, AllocError>
        ensures { IfOk result (λ file. file ≡ self.now) }
    {
        read_attributes(alloc, self.bytes.as_slice(), self.top)
    }
}
