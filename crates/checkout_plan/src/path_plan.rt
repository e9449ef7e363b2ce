use byte_path::{Bytes, Items, ObjectId};
use checkout_core::Start;
use convert_plan::Conversion;
use edge_kit::Mark;
use settings_view::Driver;

/// A path of the checkout: its object and its mark are those of its entry with the lowest stage.
#[derive(Drop)]
pub struct PathPlan {
    pub path: Bytes,
    pub object: ObjectId,
    pub mark: Mark,
    /// What is done to the content, on both ways. A link has none, and neither has a path that its entry, its name or its
    /// encoding closes.
    pub conversion: Conversion,
    /// Who takes the path. A driver is numbered by its place in the plan.
    pub start: Start,
    /// The place of its filter driver among those of the settings, if it has one there.
    pub driver: Option<u32>,
}

/// One path for each distinct path of the index, in order.
#[derive(Drop)]
pub struct Plan {
    pub paths: Items<PathPlan>,
    /// The drivers in use, in the order of their names.
    pub drivers: Items<Driver>,
    /// How many lines of all attribute files were skipped.
    pub skipped_lines: u64,
}
