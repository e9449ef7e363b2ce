ghost use Rattle.std.specs.Prelude.{◌≡◌, ◌++◌, [], OnOk, IfErr, None};
ghost use Rattle.std.specs.IoError.{error_kind};
ghost use Rattle.std.specs.declared.io.ErrorKind.TheVariants.{OutOfMemory};
ghost use Rattle.git_worktree.specs.Kinds.{HoldsSame};
ghost use Rattle.edge_kit.specs.Faults.{Rose};
ghost use Rattle.edge_kit.specs.declared.leaf_state.LeafState.TheVariants.{Fresh};

use crate::kinds::{FileKind, mode_of};
use byte_path::Bytes;
use edge_adapters::{LeafPlace, create_in_tree, create_new, empty_file, link_in_tree, remove_own};
use edge_kit::{Failed, Leaf, LeafState, Mark, SendFault};
use file_stat::stat_of;
use git_index::Stat;
use std::alloc::Global;
use std::fs::{File, symlink_metadata};
use std::io;
use std::io::{ErrorKind, Write};
use std::os::unix::fs::MetadataExt;
use std::sync::Arc;
use std::sync::atomic::{AtomicBool, Ordering};

/// How long the text of a link may be (PATH_MAX with its end).
const LONGEST_LINK: usize = 4095;

/// Whether a driver has run in a checkout, which may have removed files. All leaves of a worktree share it.
pub type Driven = Arc<AtomicBool, Global>;

/// Whether a leaf of this folder has made its file, so that the folder and those above it are there and are no links.
/// The leaves of one folder share it.
pub type FolderMade = Arc<AtomicBool, Global>;

/// A plain or executable file or a link that a worktree will have. The first piece makes a file, with the permissions
/// that it is to have. The text of a link is kept in memory until the seal makes the link.
#[derive(Drop)]
pub struct GitLeaf {
    rt: HostRuntime,
    pub place: LeafPlace,
    /// The mark that its seal has to have.
    pub mark: Mark,
    /// What its seal leaves.
    pub kind: FileKind,
    /// The text of a link.
    pub text: Vec<u8>,
    /// The file that this leaf made. It is open until it is sealed or removed, so that its number stays its own.
    pub file: Option<File>,
    pub state: LeafState,
    pub faults: u64,
    /// Its first fault.
    pub error: Option<io::Error>,
    /// What an index is to tell of its file once it is sealed, if that is asked for.
    pub stat: Option<Stat>,
    // whether a driver has run, which may have removed files
    driven: Driven,
    folder: FolderMade,
}

impl GitLeaf {
    /// A leaf for what will be at this place. It touches nothing.
    pub fn new(
        rt: HostRuntime,
        place: LeafPlace,
        mark: Mark,
        kind: FileKind,
        driven: Driven,
        folder: FolderMade,
    ) -> GitLeaf
        ensures place { result.place ≡ place }
        ensures mark { result.mark ≡ mark }
        ensures kind { result.kind ≡ kind }
        ensures empty { result.text.items ≡ [] }
        ensures unmade { result.file ≡ None }
        ensures fresh { result.state ≡ Fresh }
        ensures unfailed { result.faults ≡ 0 }
    {
        GitLeaf {
            rt,
            place,
            mark,
            kind,
            text: Vec::new(rt.alloc()),
            file: None,
            state: LeafState::Fresh,
            faults: 0,
            error: None,
            stat: None,
            driven,
            folder,
        }
    }

    /// Its path, its state and its count of faults. A file that is open is closed.
    pub fn ended(self) -> (Bytes, LeafState, u64)
        ensures { result ≡ (self.place.path, self.state, self.faults) }
    {
        (self.place.into_path(), self.state, self.faults)
    }

    /// Counts a fault that leaves the leaf in this state.
    fn fail(&mut self, state: LeafState, error: io::Error)
        ensures kept { self.new ≡ record self.old {
          state = state;
          faults = self.new.faults;
          error = self.new.error;
        } }
        ensures rose { Rose self.old.faults self.new.faults }
    {
        self.faults = self.faults.saturating_add(1);
        self.state = state;
        if self.error.is_none() {
            self.error = Some(error);
        }
    }

    /// Makes the file, with its mode less the umask. In a folder where a file was made nothing on the way is looked at
    /// again until a driver has run: a folder's place can't be taken while the folder is there.
    fn create(&self) -> io::Result<File> {
        let mode = mode_of(self.kind);
        if self.folder.load(Ordering::SeqCst) && !self.driven.load(Ordering::SeqCst) {
            match create_new(self.rt, self.place.full(), mode) {
                Err(error) if error.kind() == ErrorKind::NotFound => {}
                made => return made,
            }
        }
        let file = create_in_tree(self.rt, self.place.full(), self.place.top(), mode)?;
        self.folder.store(true, Ordering::SeqCst);
        Ok(file)
    }

    /// Writes the piece to the file, and makes the file first if this leaf has none.
    fn write_piece(&mut self, piece: &[u8]) -> io::Result<()>
        ensures kept { self.new ≡ record self.old { file = self.new.file } }
        ensures unmade { self.new.file ≡ None → self.old.file ≡ None }
    {
        let mut file = match self.file.take() {
            Some(file) => file,
            None => self.create()?,
        };
        let written = file.write_all(piece);
        self.file = Some(file);
        written
    }

    /// Adds the piece to the text of a link.
    fn add_text(&mut self, piece: &[u8]) -> io::Result<()>
        ensures kept { self.new ≡ record self.old { text = self.new.text } }
        ensures text { OnOk result (self.new.text.items ≡ self.old.text.items ++ piece.now) }
        ensures untouched { IfErr result (λ e. self.new.text.items ≡ self.old.text.items) }
    {
        if piece.len() > LONGEST_LINK.saturating_sub(self.text.len()) {
            return Err(io::Error::from(ErrorKind::InvalidFilename));
        }
        self.text.extend_from_slice(piece)?;
        Ok(())
    }

    /// Adds the piece to the text or to the file. Out of memory changes nothing, and any other error may have.
    fn add(&mut self, piece: &[u8]) -> io::Result<()>
        ensures kept { self.new ≡ record self.old { text = self.new.text; file = self.new.file } }
        ensures untouched { IfErr result (λ e. error_kind e ≡ OutOfMemory → HoldsSame self.old self.new) }
    {
        if let FileKind::Link = self.kind {
            return self.add_text(piece);
        }
        match self.write_piece(piece) {
            Err(error) if self.file.is_some() && error.kind() == ErrorKind::OutOfMemory => {
                Err(io::Error::from(ErrorKind::Other))
            }
            written => written,
        }
    }

    /// Drops what was put.
    fn begin_again(&mut self) -> io::Result<()>
        ensures kept { self.new ≡ record self.old { text = self.new.text; file = self.new.file } }
        ensures empty { self.new.text.items ≡ [] }
    {
        self.text.clear();
        match &mut self.file {
            Some(file) => empty_file(file),
            None => Ok(()),
        }
    }

    /// Removes the file that this leaf made, if it made one. If another thing has its place, that stays.
    fn remove(&mut self) -> io::Result<()>
        ensures kept { self.new ≡ record self.old { file = self.new.file } }
        ensures unmade { OnOk result (self.new.file ≡ None) }
    {
        match &self.file {
            Some(file) => remove_own(self.rt, file, self.place.full())?,
            None => {}
        }
        self.file = None;
        Ok(())
    }

    /// Makes a link whose text is what was put, up to the first NUL: the system knows no other text.
    fn make_link(&self) -> io::Result<()> {
        let text = self.text.as_slice().split(|byte| *byte == 0).next();
        let text = text.unwrap_or(&[]);
        link_in_tree(self.rt, text, self.place.full(), self.place.top())
    }

    /// Ends the file, which is made even if it is empty. Where a driver has run, it has to have its name still.
    fn end_file(&mut self) -> io::Result<()>
        ensures kept { self.new ≡ record self.old { file = self.new.file } }
    {
        self.write_piece(&[])?;
        match &self.file {
            Some(file) if self.driven.load(Ordering::SeqCst) => {
                need_name(self.rt, file, self.place.full())
            }
            _ => Ok(()),
        }
    }

    /// Looks at what was made, if its stat is asked for. Of what can't be looked at nothing is told.
    fn look(&mut self)
        ensures kept { self.new ≡ record self.old { stat = self.new.stat } }
    {
        if self.stat.is_none() {
            return;
        }
        let found = match &self.file {
            Some(file) => file.metadata(),
            None => symlink_metadata(&self.rt, self.place.full()),
        };
        if let Ok(found) = found {
            self.stat = Some(stat_of(&found));
        }
    }

    /// Makes what the mark asks for, which is the one that the leaf was made for.
    fn make(&mut self, mark: Mark) -> io::Result<()>
        ensures kept { self.new ≡ record self.old { file = self.new.file } }
    {
        if mark != self.mark {
            return Err(io::Error::from(ErrorKind::InvalidInput));
        }
        match self.kind {
            FileKind::Link => self.make_link(),
            FileKind::File | FileKind::Program => self.end_file(),
        }
    }
}

/// The file has to be the one at the path.
fn need_name(rt: HostRuntime, file: &File, path: &str) -> io::Result<()> {
    let own = file.metadata()?;
    let found = symlink_metadata(&rt, path)?;
    if own.dev() == found.dev() && own.ino() == found.ino() {
        Ok(())
    } else {
        Err(io::Error::from(ErrorKind::NotFound))
    }
}

impl Leaf for GitLeaf {
    ghost seen = { λ l. record { path = l.place.path; content = None; state = l.state; faults = l.faults } };

    ghost fresh_content = { λ _ _. tt };

    fn put(&mut self, piece: &[u8]) -> Result<(), SendFault> {
        match self.add(piece) {
            Ok(()) => {
                self.state = LeafState::Partly;
                Ok(())
            }
            Err(error) if error.kind() == ErrorKind::OutOfMemory => Err(SendFault::NoMemory),
            Err(error) => {
                self.fail(LeafState::Broken, error);
                Err(SendFault::Failed)
            }
        }
    }

    fn restart(&mut self) -> Result<(), Failed> {
        match self.begin_again() {
            Ok(()) => {
                self.state = LeafState::Fresh;
                Ok(())
            }
            Err(error) => {
                self.fail(LeafState::Broken, error);
                Err(Failed)
            }
        }
    }

    /// The file isn't synced, and the system reports no fault of closing it: a fault that the system finds only as it
    /// writes the data back is lost.
    fn seal(&mut self, mark: Mark) -> Result<(), Failed> {
        match self.make(mark) {
            Ok(()) => {
                self.look();
                self.file = None;
                self.text = Vec::new(self.rt.alloc());
                self.state = LeafState::Sealed(mark);
                Ok(())
            }
            Err(error) => {
                self.fail(LeafState::Broken, error);
                Err(Failed)
            }
        }
    }

    /// A file that isn't the one that this leaf made stays, and is a fault.
    fn discard(&mut self) -> Result<(), Failed> {
        match self.remove() {
            Ok(()) => {
                self.text = Vec::new(self.rt.alloc());
                self.state = LeafState::Gone;
                Ok(())
            }
            Err(error) => {
                self.fail(LeafState::Stuck, error);
                Err(Failed)
            }
        }
    }
}
