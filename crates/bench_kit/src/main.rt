//! Measurements of the libraries, for `bench/`, and what they give on small inputs, which is the same in each run.
//!
//! The first word names the measurement, and those behind it what is measured:
//!
//! - `replay PATHS`: one run of the core;
//! - `turns SEATS TURNS`: turns of the lock, with a seat in each thread;
//! - `book CARDS`: claims and closes of a book, one after another;
//! - `sessions BYTES COUNT`: exchanges with a filter driver in memory;
//! - `conversions`: each conversion beside a copy;
//! - `streams TURNS FILE`: zlib streams;
//! - `histories`: small books;
//! - `calls`: the calls that take no memory, each between two lines.
//!
//! Without a word each is told of on a small input, and the streams are those of the file `streams`.
#![tactic(auto)]

mod calls;
mod content;
mod conversion;
mod conversions;
mod replay;
mod sessions;
mod streams;
mod turns;

use std::io::Print;
use std::rt::{Clock, Env};
use std::sync::Wait;
use std::thread::Threads;
use std::{env, io};

/// The words behind the program's own name.
fn words_of<R: Env + AllocGlobal>(rt: &R) -> io::Result<Vec<String>> {
    let mut words = Vec::new(rt.alloc());
    let mut given = env::args(rt)?;
    let _program = given.next();
    for word in given {
        words.push(word)?;
    }
    Ok(words)
}

/// The number that the word at this place is, or 0.
fn number_at(words: &[String], at: usize) -> u32 {
    match words.get(at) {
        Some(word) => word.parse::<u32>().unwrap_or(0),
        None => 0,
    }
}

/// The last word.
fn last_of(words: &[String]) -> &str {
    match words.last() {
        Some(word) => word.as_str(),
        None => "",
    }
}

/// Each measurement on a small input.
fn tell_all<R: Clock + Print + Threads + Wait + Sync + AllocGlobal>(
    rt: &R,
    host: HostRuntime,
) -> io::Result<()> {
    replay::tell(rt, 1000, false)?;
    turns::tell_small(rt)?;
    bench_books::tell_small(rt)?;
    sessions::tell_small(rt)?;
    conversions::tell(rt, false)?;
    streams::tell(host, 2, "streams")?;
    calls::tell(host)
}

/// The measurement that the first word names.
fn tell<R: Clock + Print + Threads + Wait + Sync + AllocGlobal>(
    rt: &R,
    host: HostRuntime,
    words: &[String],
) -> io::Result<()> {
    let name = match words.first() {
        Some(word) => word.as_str(),
        None => return tell_all(rt, host),
    };
    let (first, second) = (number_at(words, 1), number_at(words, 2));
    if name == "replay" {
        replay::tell(rt, first, true)
    } else if name == "turns" {
        turns::tell(rt, first, second, true)
    } else if name == "book" {
        bench_books::tell_large(rt, first)
    } else if name == "sessions" {
        sessions::tell(rt, first, second, true)
    } else if name == "conversions" {
        conversions::tell(rt, true)
    } else if name == "streams" {
        streams::tell(host, first, last_of(words))
    } else if name == "histories" {
        bench_books::tell_small(rt)
    } else if name == "calls" {
        calls::tell(host)
    } else {
        Err(io::ErrorKind::InvalidInput.into())
    }
}

fn main(rt: HostRuntime) -> io::Result<()> {
    let words = words_of(&rt)?;
    tell(&rt, rt, &words)
}
