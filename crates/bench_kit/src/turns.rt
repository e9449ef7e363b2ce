//! A diary under a lock, written by many seats.
ghost use Rattle.std.specs.Prelude.{◌≡◌, ◌≤◌, ◌<◌, ℕ};
ghost use Rattle.turn_lock.specs.Seat.{number_of};
ghost use Rattle.turn_lock.specs.Seats.{IsSeat};

use std::alloc::{AllocError, Global};
use std::io::Print;
use std::rt::Clock;
use std::sync::Wait;
use std::thread::Threads;
use std::time::Instant;
use std::{io, thread};
use turn_lock::{Kept, TurnLock, TurnSeat, laws};

/// Lines, each with the number of the seat that wrote it.
#[derive(Drop)]
struct Diary {
    lines: Vec<(u32, u32)>,
}

impl Kept for Diary {
    type Entry = u32;

    type Told = u32;

    ghost history = { λ s. s.lines.items };

    ghost told = { λ s. 7 };

    ghost fits = { λ s d. d ≡ 7 };
}

/// Writes the lines 0, 1, .., each in a turn of its own.
fn write<H: Wait>(
    rt: &H,
    lock: &TurnLock<Diary>,
    mut seat: TurnSeat<Diary>,
    turns: u32,
) -> TurnSeat<Diary>
    requires { (d : ℕ) × (made : ℕ) × IsSeat lock.now d (number_of seat) made seat }
    ensures { (d made : ℕ) → IsSeat lock.now d (number_of seat) made seat
        → IsSeat lock.now d (number_of seat) made result }
{
    for line in 0..turns {
        let mut turn = lock.enter(rt, &mut seat);
        let _ = turn.value.lines.push((seat.number(), line));
        lock.leave(&mut seat, turn);
    }
    seat
}

/// A diary that this many seats write, each in a thread of its own.
fn written<H: Threads + Wait + Sync>(
    rt: &H,
    alloc: Global,
    seats: u32,
    turns: u32,
) -> Result<Diary, AllocError>
    requires { 1 ≤ seats }
{
    laws::each_seat_has_its_place::<Diary>();
    laws::seats_that_stay_are_all_again::<Diary>();
    let lines = Vec::new(alloc);
    let (lock, all) = TurnLock::make(alloc, Diary { lines }, seats)?;
    let all = thread::map_vec(
        rt,
        all,
        &|seat: TurnSeat<Diary>| -> TurnSeat<Diary>
            requires { (d : ℕ) × (made : ℕ) × IsSeat lock d (number_of seat) made seat }
            ensures { (d made : ℕ) → IsSeat lock d (number_of seat) made seat
                → IsSeat lock d (number_of seat) made result }
        { write(rt, &lock, seat, turns) },
    )?;
    Ok(lock.end(all))
}

/// How many lines of one seat are in order.
fn in_order(lines: &[(u32, u32)], number: u32) -> u32 {
    let mut next = 0;
    for (seat, line) in lines {
        if *seat == number && *line == next && next < u32::MAX {
            next += 1;
        }
    }
    next
}

/// How many lines a diary has, and how many of its seats have all of theirs in order.
fn counted(diary: Diary, seats: u32, turns: u32) -> (usize, u32) {
    let mut whole = 0u32;
    for number in 0..seats {
        if in_order(&diary.lines, number) == turns && whole < u32::MAX {
            whole += 1;
        }
    }
    (diary.lines.len(), whole)
}

/// Prints what the diary of `seats` seats holds, as a line, and its time if asked for.
pub fn tell<R: Clock + Print + Threads + Wait + Sync + AllocGlobal>(
    rt: &R,
    seats: u32,
    turns: u32,
    timed: bool,
) -> io::Result<()> {
    let begun = Instant::now(rt)?;
    let diary = written(rt, rt.alloc(), seats.max(1), turns)?;
    let took = begun.elapsed(rt);
    let (lines, whole) = counted(diary, seats, turns);
    let micros = took?.as_micros();
    println!(rt; "{seats} seats of {turns} turns: {lines} lines, {whole} seats in order")?;
    if timed {
        println!(rt; "{micros} microseconds")?;
    }
    Ok(())
}

/// Tells of three small diaries.
pub fn tell_small<R: Clock + Print + Threads + Wait + Sync + AllocGlobal>(
    rt: &R,
) -> io::Result<()> {
    for (seats, turns) in [(1, 3), (2, 10_000), (16, 500)] {
        tell(rt, seats, turns, false)?;
    }
    Ok(())
}
