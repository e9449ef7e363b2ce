//! The tests of a repository that is read through git, and of the worktree that git would leave.
//!
//! Each is in a folder of its own, which a shell fills (`place`), with git itself. `objects` has what is read of a
//! repository and `ahead` in which order, `indexes` its index and what is said of it, `leaves` what is written, and
//! `children` the processes. It has nothing but tests, whose tables `table` reads.
#![tactic(auto)]

#[cfg(test)]
mod ahead;
#[cfg(test)]
mod children;
#[cfg(test)]
mod indexes;
#[cfg(test)]
mod leaves;
#[cfg(test)]
mod objects;
#[cfg(test)]
mod place;
#[cfg(test)]
mod table;
