//! A table of what the report of a sync domain says of small plants.
#![tactic(auto)]

#[cfg(test)]
mod plants;
#[cfg(test)]
mod tests;
