//! A filter driver on standard input and standard output: gitattributes(5), "Long Running Filter
//! Process". It gives each content in capitals: with the argument `upper` at once, and with `late`
//! once the client asks for it a second time.
#![tactic(auto)]

ghost use Rattle.std.specs.Prelude.{◌≡◌};
ghost use Rattle.sample_host.specs.Modes.{caps_named};

mod capitals;
mod served;

use crate::capitals::Capitals;
use crate::served::serve;
use anyhow::Context;
use driver_host::Host;
use filter_words::Caps;
use std::env::args;
use std::io;

/// At most so many paths stand in one list.
const BATCH: u32 = 16;

/// What the driver announces under this argument.
fn caps_named(word: &str) -> Option<Caps>
    ensures { result ≡ caps_named word.now }
{
    match word {
        "upper" => Some(Caps {
            smudge: true,
            delay: false,
        }),
        "late" => Some(Caps {
            smudge: true,
            delay: true,
        }),
        _ => None,
    }
}

fn main(rt: HostRuntime) -> Result<(), anyhow::Error> {
    let alloc = rt.alloc();
    let word = args(&rt)?.nth(1).context("usage: sample_host upper|late")?;
    let caps = caps_named(&word).context("usage: sample_host upper|late")?;
    let mut host = Host::reserve(alloc, Capitals::make(alloc)?, caps, BATCH)?;
    serve(alloc, &mut host, &mut rt.reader(), &mut io::writer(&rt))
}
