//! Tests of the command line: what the words of each report ask for.
#![tactic(auto)]

#[cfg(test)]
mod expect;
#[cfg(test)]
mod line;
