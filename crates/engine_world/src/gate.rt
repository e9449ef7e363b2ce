//! What watches the points of the actors' work.
use edge_kit::{Gate, Point};
use std::hint::{black_box, spin_loop};
use std::sync::atomic::{AtomicBool, AtomicU32, Ordering};

/// A gate that counts the paths that are closed. If a path and a point are given, the actor that has claimed path 0 and
/// the one that is at this point of this path wait for each other. The actors with an odd number, or those with an even
/// one, may be held after each claim and after a driver's first reply for a path.
#[derive(Drop)]
pub struct Watch {
    pub meeting: Option<(u32, Point)>,
    /// Whether the odd ones are held.
    pub held: Option<bool>,
    first: AtomicBool,
    second: AtomicBool,
    first_saw: AtomicBool,
    second_saw: AtomicBool,
    closings: AtomicU32,
}

impl Watch {
    /// A gate that holds no actor.
    pub fn new() -> Watch {
        Watch {
            meeting: None,
            held: None,
            first: AtomicBool::new(false),
            second: AtomicBool::new(false),
            first_saw: AtomicBool::new(false),
            second_saw: AtomicBool::new(false),
            closings: AtomicU32::new(0),
        }
    }

    /// Whether each saw the other.
    pub fn is_met(&self) -> bool {
        self.first_saw.load(Ordering::SeqCst) && self.second_saw.load(Ordering::SeqCst)
    }

    /// How many paths were closed.
    pub fn closings(&self) -> u32 {
        self.closings.load(Ordering::SeqCst)
    }
}

/// Whether the flag is set within so many turns.
fn sees(flag: &AtomicBool) -> bool {
    for _ in 0..200_000_000u32 {
        if flag.load(Ordering::SeqCst) {
            return true;
        }
        spin_loop();
    }
    false
}

/// Holds an actor for a while.
fn hold() {
    let mut sum = 0u32;
    for turn in 0..20_000u32 {
        sum = sum.wrapping_mul(31).wrapping_add(turn);
    }
    let _ = black_box(sum);
}

impl Gate for Watch {
    fn at(&self, actor: u32, path: u32, point: Point) {
        if point == Point::Closed {
            self.closings.fetch_add(1, Ordering::SeqCst);
        } else if self.held == Some(actor % 2 == 1) {
            hold();
        }
        let Some((other, there)) = self.meeting else {
            return;
        };
        if path == 0 && point == Point::Claimed {
            self.first.store(true, Ordering::SeqCst);
            self.first_saw.store(sees(&self.second), Ordering::SeqCst);
        }
        if path == other && point == there {
            self.second.store(true, Ordering::SeqCst);
            self.second_saw.store(sees(&self.first), Ordering::SeqCst);
        }
    }
}
