//! What the top call does with a sink that fails, and with words of the command that waits.
#![tactic(auto)]

#[cfg(test)]
mod sink;
#[cfg(test)]
mod words;
