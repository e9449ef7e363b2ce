//! What zlib makes is inflated, and what it refuses is refused.
#![tactic(auto)]

#[cfg(test)]
mod streams;
#[cfg(test)]
mod vectors;
