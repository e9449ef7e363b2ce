//! Where the file of a leaf is.
ghost use Rattle.std.specs.Prelude.{◌≡◌, ◌<◌, IfOk, length, string_bytes};
ghost use Rattle.edge_adapters.specs.Paths.{path_in};

use byte_path::Bytes;
use std::alloc::{AllocError, Global};
use std::marker::Model;

/// A worktree's folder and a path in it, as one text, since a worktree has one for each path.
#[derive(Drop)]
pub struct LeafPlace {
    text: String,
    // how many bytes of the text name the folder
    top: usize,
    ghost inside: { top < length (string_bytes text) },
}

impl Model for LeafPlace {
    ghost use Rattle.std.specs.Prelude.{string_bytes};
    ghost use Rattle.edge_adapters.specs.LeafPlaces.{LeafAt, leaf_at};

    ghost Value = { LeafAt };

    ghost view = { λ p. leaf_at p.top (string_bytes p.text) };
}

impl LeafPlace {
    /// The file with this path in this folder. It touches nothing.
    pub fn new(alloc: Global, folder: &str, path: &str) -> Result<LeafPlace, AllocError>
        ensures path { IfOk result (λ p. p.path ≡ path.now) }
        ensures full { IfOk result (λ p. p.full ≡ path_in folder.now path.now) }
    {
        let mut text = String::with_capacity(alloc, folder.len() + 1 + path.len())?;
        text.push_str(folder)?;
        text.push_str("/")?;
        text.push_str(path)?;
        Ok(LeafPlace {
            text,
            top: folder.len(),
        })
    }

    /// The path, from the worktree's folder.
    pub fn path(&self) -> &[u8]
        ensures { result.now ≡ self.now.path }
    {
        let (_, path) = self.text.as_bytes().split_at(self.top + 1);
        path
    }

    /// The path to open. It is empty if the folder's name is: it must not become a path from the root.
    pub fn full(&self) -> &str
        ensures { result.now ≡ self.now.full }
    {
        if self.top == 0 {
            ""
        } else {
            self.text.as_str()
        }
    }

    /// How many bytes of the path to open name the folder.
    pub fn top(&self) -> usize {
        self.top
    }

    /// The path, from the worktree's folder, in the memory of both.
    pub fn into_path(self) -> Bytes
        ensures { result ≡ self.path }
    {
        let front = self.top + 1;
        let mut bytes = self.text.into_bytes();
        let len = bytes.len() - front;
        bytes.copy_within(front.., 0);
        bytes.truncate(len);
        Bytes::from_vec(bytes)
    }
}
