//! Children that were given up: their pipes are closed, and they aren't waited for at once.
//!
//! Each gets time to end by itself, as it may still be cleaning up. One that goes on is killed, and each is waited for.
ghost use Rattle.std.specs.Prelude.{◌≡◌, ◌≤◌, vec_len, vec_capacity};

use std::process::Child;
use std::thread::sleep;
use std::time::Duration;

/// How many children of a driver may live on while others are started.
const MOST: usize = 16;

/// How often, and after how many milliseconds each time, it is looked whether the last children have ended.
const LOOKS: u32 = 50;

const PAUSE: u64 = 10;

/// Whether a child goes on. One that has ended is no zombie then.
fn goes_on(child: &mut Child) -> bool {
    matches!(child.try_wait(), Ok(None))
}

/// Kills a child and waits for it. One that may not be killed isn't waited for, since it may never end.
fn end_child(child: &mut Child) {
    if child.kill().is_ok() {
        let _ = child.wait();
    }
}

/// Forgets the children that have ended, in whatever order they did.
fn forget_ended(children: &mut Vec<Child>)
    ensures fewer { vec_len children.new ≤ vec_len children.old }
    ensures capacity { vec_capacity children.new ≡ vec_capacity children.old }
{
    children.retain_mut(goes_on);
}

/// Forgets the children that have ended, and ends the oldest of too many others.
pub fn thin_out(children: &mut Vec<Child>)
    ensures fewer { vec_len children.new ≤ vec_len children.old }
    ensures capacity { vec_capacity children.new ≡ vec_capacity children.old }
{
    forget_ended(children);
    if children.len() > MOST {
        let mut oldest = children.remove(0);
        end_child(&mut oldest);
    }
}

/// Gives the children half a second to end, and ends those that go on.
pub fn end_all(rt: HostRuntime, mut children: Vec<Child>) {
    for _ in 0..LOOKS {
        forget_ended(&mut children);
        if children.is_empty() {
            return;
        }
        sleep(&rt, Duration::from_millis(PAUSE));
    }
    for child in children.iter_mut() {
        end_child(child);
    }
}
