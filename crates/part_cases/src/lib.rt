//! Tables of what the parts of devices do: applications, frames on the wire, gates, delays of lines, PTCP messages, and
//! the exchange, as a machine and on atomic words.
#![tactic(auto)]

#[cfg(test)]
mod apps;
#[cfg(test)]
mod exchanges;
#[cfg(test)]
mod frames;
#[cfg(test)]
mod gates;
#[cfg(test)]
mod lines;
#[cfg(test)]
mod messages;
#[cfg(test)]
mod swaps;
