//! Tests of what a check finds, as it is printed.
#![tactic(auto)]

#[cfg(test)]
mod findings;
#[cfg(test)]
mod text;
