//! The lines of the drivers.
ghost use Rattle.std.specs.Prelude.{◌≡◌, ◌≤◌, ◌<◌, ◌+◌, ◌^◌, ℕ, None, IfOk, OnErr, length, replicate};
ghost use Rattle.clean_drivers.specs.Drivers.{LinesView, drivers_seen, HasLine, IsTalk, Asks};
ghost use Rattle.clean_drivers.specs.Drivers.{lines_out, out_of, GivesLine, GivesBack};

use crate::cause::CleanFault;
use crate::line::CleanLine;
use crate::single::run_single;
use byte_path::Bytes;
use edge_kit::{Spawner, Starter};
use one_shot::Once;
use std::alloc::{AllocError, Global};
use std::marker::Model;

/// A path that a driver is asked for.
#[derive(Clone, Copy)]
pub struct Question<'a> {
    /// The driver's place among those of the settings.
    pub driver: usize,
    /// What runs the driver: the command of a long-running filter process, or a NUL and that of a single run.
    pub text: &'a [u8],
    /// The path, of 1 to 4,096 bytes.
    pub path: &'a [u8],
    /// The bytes of its file.
    pub content: &'a [u8],
}

/// The drivers of a check-in, by their places among those of the settings.
#[derive(Drop)]
pub struct CleanDrivers<S: Starter> {
    alloc: Global,
    lines: Vec<Option<CleanLine<S>>>,
    /// How many questions were asked over the lines.
    asked: u32,
}

impl<S: Starter> Model for CleanDrivers<S> {
    ghost use Rattle.std.specs.Prelude.{◌≡◌, ◌≤◌, ℕ, Some, slice_get};
    ghost use Rattle.clean_drivers.specs.CleanLines.{CleanLineView, starts_of};
    ghost use Rattle.clean_drivers.specs.Drivers.{LinesView};

    ghost Value = { LinesView };

    ghost view = { λ d. record { lines = d.lines.items; asked = d.asked } };

    // Each start was for a path.
    ghost invariant = { λ d. (place : ℕ) (line : CleanLineView) → slice_get d.lines.items place ≡ Some (Some line)
        → starts_of line ≤ d.asked };
}

impl<S: Starter> CleanDrivers<S> {
    /// So many drivers, none of which was asked for anything.
    pub fn new(alloc: Global, count: usize) -> Result<CleanDrivers<S>, AllocError>
        ensures { IfOk result (λ d. (d.lines ≡ replicate count None) × (d.asked ≡ 0)) }
    {
        let mut lines = Vec::with_capacity(alloc, count)?;
        for _ in 0..count {
            lines.push(None)?;
        }
        Ok(CleanDrivers {
            alloc,
            lines,
            asked: 0,
        })
    }
}

/// Asks a driver to clean a content.
pub fn clean<P: Spawner, O: Once>(
    drivers: &mut CleanDrivers<P::Starter>,
    spawner: &mut P,
    once: &mut O,
    question: &Question<'_>,
) -> Result<Bytes, CleanFault>
    requires place { question.now.driver < length drivers.old.lines }
    requires few { drivers.old.asked + 1 < 2 ^ 32 }
    requires some { 1 ≤ length question.now.path.now }
    requires within { length question.now.path.now ≤ 4096 }
    ensures starts { P.told spawner.new ≡ P.told spawner.old }
    ensures runs { O.told once.new ≡ O.told once.old }
    ensures asks { Asks (P.told spawner.old) (O.told once.old) question.now.driver question.now.text.now
        question.now.path.now question.now.content.now
        (drivers_seen drivers.old.lines (P.seen spawner.old) (O.faults once.old))
        (drivers_seen drivers.new.lines (P.seen spawner.new) (O.faults once.new)) result }
    ensures asked { drivers.new.asked ≤ drivers.old.asked + 1 }
    ensures places { length drivers.new.lines ≡ length drivers.old.lines }
    ensures out { (P.seen spawner.new).out + lines_out drivers.old.lines
        ≡ (P.seen spawner.old).out + lines_out drivers.new.lines }
{
    match question.text {
        [0, command @ ..] => run_single(
            drivers.alloc,
            once,
            command,
            question.path,
            question.content,
        ),
        _ => talk(drivers, spawner, question),
    }
}

/// Asks a driver over its line.
fn talk<P: Spawner>(
    drivers: &mut CleanDrivers<P::Starter>,
    spawner: &mut P,
    question: &Question<'_>,
) -> Result<Bytes, CleanFault>
    requires place { question.now.driver < length drivers.old.lines }
    requires few { drivers.old.asked + 1 < 2 ^ 32 }
    requires some { 1 ≤ length question.now.path.now }
    requires within { length question.now.path.now ≤ 4096 }
    ensures told { P.told spawner.new ≡ P.told spawner.old }
    ensures talks { (faults : ℕ) → IsTalk (P.told spawner.old) question.now.driver question.now.text.now
        question.now.path.now question.now.content.now
        (drivers_seen drivers.old.lines (P.seen spawner.old) faults)
        (drivers_seen drivers.new.lines (P.seen spawner.new) faults) result }
    ensures asked { drivers.new.asked ≤ drivers.old.asked + 1 }
    ensures places { length drivers.new.lines ≡ length drivers.old.lines }
    ensures out { (P.seen spawner.new).out + lines_out drivers.old.lines
        ≡ (P.seen spawner.old).out + lines_out drivers.new.lines }
{
    let alloc = drivers.alloc;
    let found = drivers.lines[question.driver].take();
    let Ok(mut line) = line_for(alloc, spawner, question.text, found) else {
        return Err(CleanFault::NoMemory);
    };
    let answer = line.clean(question.path, question.content);
    drivers.lines[question.driver] = Some(line);
    drivers.asked += 1;
    answer
}

/// The line of a driver, which for the first path is a new one.
fn line_for<P: Spawner>(
    alloc: Global,
    spawner: &mut P,
    command: &[u8],
    found: Option<CleanLine<P::Starter>>,
) -> Result<CleanLine<P::Starter>, AllocError>
    ensures told { P.told spawner.new ≡ P.told spawner.old }
    ensures line { IfOk result (λ line.
        HasLine (P.told spawner.old) command.now found (P.seen spawner.old) (P.seen spawner.new) line) }
    ensures none { OnErr result ((found ≡ None) × (P.seen spawner.new ≡ P.seen spawner.old)) }
{
    match found {
        Some(line) => Ok(line),
        None => Ok(CleanLine::new(alloc, spawner.starter(command)?)),
    }
}

/// Shuts what is open, and gives each starter back, in the order of the drivers.
pub fn give_back<P: Spawner>(drivers: CleanDrivers<P::Starter>, spawner: &mut P)
    requires out { lines_out drivers.lines ≤ (P.seen spawner.old).out }
    ensures told { P.told spawner.new ≡ P.told spawner.old }
    ensures back { GivesBack drivers.lines (P.seen spawner.old) (P.seen spawner.new) }
    ensures out { (P.seen spawner.new).out + lines_out drivers.lines ≡ (P.seen spawner.old).out }
{
    let CleanDrivers { lines, .. } = drivers;
    for line in lines {
        give_line(spawner, line);
    }
}

/// Shuts what is open on a line, and gives its starter back.
fn give_line<P: Spawner>(spawner: &mut P, line: Option<CleanLine<P::Starter>>)
    requires { out_of line ≤ (P.seen spawner.old).out }
    ensures told { P.told spawner.new ≡ P.told spawner.old }
    ensures back { GivesLine line (P.seen spawner.old) (P.seen spawner.new) }
    ensures out { (P.seen spawner.new).out + out_of line ≡ (P.seen spawner.old).out }
{
    if let Some(line) = line {
        spawner.take_back(line.into_starter());
    }
}
