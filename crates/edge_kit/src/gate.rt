/// A moment in the work on a path.
#[derive(Clone, Copy)]
pub enum Point {
    /// The actor has claimed the path.
    Claimed,
    /// It has taken the first reply for the path.
    Replied,
    /// It has closed the path.
    Closed,
}

/// What each actor calls at the points of its work, outside the lock. A test's gate holds an actor there for a while.
pub trait Gate: Sync {
    fn at(&self, actor: u32, path: u32, point: Point);
}

/// A gate that does nothing.
#[derive(Clone, Copy)]
pub struct NoGate;

impl Gate for NoGate {
    fn at(&self, _actor: u32, _path: u32, _point: Point) {}
}
