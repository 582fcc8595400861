//! Tables of the worlds of a seed and of world files.
#![tactic(auto)]

#[cfg(test)]
mod files;
#[cfg(test)]
mod seeds;
