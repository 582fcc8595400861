//! Tables of what one device of the network does with arrivals, released frames and parcels.
#![tactic(auto)]

#[cfg(test)]
mod tests;
