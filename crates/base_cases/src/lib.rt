//! Tables of plain types, number texts, draws, sweeps of a link direction and gaps in it.
#![tactic(auto)]

#[cfg(test)]
mod draws;
#[cfg(test)]
mod gaps;
#[cfg(test)]
mod sweeps;
#[cfg(test)]
mod types;
