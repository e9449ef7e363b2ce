//! The empty folders that a checkout leaves for submodules, as git does.
use byte_path::{Bytes, quote_path};
use edge_adapters::{LeafPlace, folder_in_tree};
use siuwbren_index::say;
use std::alloc::AllocError;
use std::io;
use std::io::ErrorKind;

/// Makes the folder of a submodule, whose path has to be text.
fn make_folder(rt: HostRuntime, tree: &str, path: &[u8]) -> io::Result<()> {
    let Ok(text) = str::from_utf8(path) else {
        return Err(io::Error::from(ErrorKind::InvalidFilename));
    };
    let place = LeafPlace::new(rt.alloc(), tree, text)?;
    folder_in_tree(rt, place.full(), place.top())
}

/// Says that the folder of a submodule can't be made.
fn warn(rt: HostRuntime, path: &[u8], error: &io::Error) -> Result<(), AllocError> {
    if let Ok(shown) = String::from_utf8(quote_path(rt.alloc(), path)?) {
        let text = format!(in rt.alloc(); "warning: the folder of submodule {shown}: {error}")?;
        say(rt, text.as_str());
    }
    Ok(())
}

/// Makes the folders of the submodules with these paths. Standard error says which can't be made.
pub fn make_submodules(rt: HostRuntime, tree: &str, paths: &[Bytes]) -> Result<(), AllocError> {
    for path in paths {
        if let Err(error) = make_folder(rt, tree, path.as_slice()) {
            warn(rt, path.as_slice(), &error)?;
        }
    }
    Ok(())
}
