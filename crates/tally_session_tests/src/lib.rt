//! Tests of sessions: worked scripts, and a slow program beside the quick one.
#![tactic(auto)]

#[cfg(test)]
mod equal;
#[cfg(test)]
mod sessions;
