//! Tables of the events and rows of a cycle, of journals as text, and of parcels.
#![tactic(auto)]

#[cfg(test)]
mod events;
#[cfg(test)]
mod journals;
#[cfg(test)]
mod parcels;
#[cfg(test)]
mod rows;
