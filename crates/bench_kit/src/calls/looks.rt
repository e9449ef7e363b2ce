// A look into a folder.
use bench_books::marks::{begin, end};
use edge_adapters::holds_nothing;
use std::io;

pub fn make_calls(rt: HostRuntime) -> io::Result<()> {
    begin(&rt, "holds_nothing")?;
    let has_folders = matches!(holds_nothing(rt, "/"), Ok(false));
    let is_there = holds_nothing(rt, "/no such folder").is_ok();
    end(&rt, has_folders && !is_there)
}
