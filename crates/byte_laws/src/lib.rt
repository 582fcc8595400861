//! What the codecs of bytes stand on: the words that bytes spell, and what it is that reading and
//! spelling are one.
#![tactic(auto)]
