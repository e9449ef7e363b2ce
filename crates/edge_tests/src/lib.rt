//! The tests of the adapters of the outside, with real files and children.
//!
//! A crate with tests is proved twice, with them and without. So the tests of `edge_adapters` are
//! here, over the built libraries: `folders`, `empty_trees`, `leaf_files`, `children`,
//! `single_runs` and `output`, with real files and children in a `place` of their own. `sessions`
//! has a session of `filter_proto` with a real child, and `gates` the gate of `edge_kit` that holds
//! nobody. It has nothing but tests, whose tables `table` reads.
#![tactic(auto)]

#[cfg(test)]
mod children;
#[cfg(test)]
mod empty_trees;
#[cfg(test)]
mod folders;
#[cfg(test)]
mod gates;
#[cfg(test)]
mod leaf_files;
#[cfg(test)]
mod output;
#[cfg(test)]
mod place;
#[cfg(test)]
mod sessions;
#[cfg(test)]
mod single_runs;
#[cfg(test)]
mod table;
