//! The plan of a checkout: what becomes of each path of an index, before any file is touched.
#![tactic(auto)]

mod attribute_files;
mod drivers;
mod fault;
mod made_plan;
mod number;
mod path_plan;
mod paths;
mod skipped;
mod starts;

pub use attribute_files::object_content;
pub use fault::{PlanFault, object_kind};
pub use made_plan::{closed_paths_have_causes, make_plan};
pub use path_plan::{PathPlan, Plan};
pub use starts::places_start;
