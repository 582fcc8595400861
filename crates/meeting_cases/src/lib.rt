//! Runs of two applications, each of which waits in its turn for the other's turn to begin.
#![tactic(auto)]

#[cfg(test)]
mod apps;
#[cfg(test)]
mod plans;
#[cfg(test)]
mod runs;
#[cfg(test)]
mod tests;
