//! Plants by seed, and plants that are printed and read back.
#![tactic(auto)]

#[cfg(test)]
mod seeds;
#[cfg(test)]
mod tests;
