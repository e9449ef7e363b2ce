//! The calls that take no memory, each between two lines, and one that takes some.
//!
//! The first line names the call, and the second says whether it gave what it should.
mod attributes;
mod delays;
mod driver_words;
mod events;
mod looks;
mod texts;

use std::io;

/// Makes each call.
pub fn tell(rt: HostRuntime) -> io::Result<()> {
    texts::make_calls(&rt)?;
    attributes::make_calls(&rt)?;
    driver_words::make_calls(&rt)?;
    delays::make_calls(&rt)?;
    events::make_calls(&rt)?;
    looks::make_calls(rt)
}
