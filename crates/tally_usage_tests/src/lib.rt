//! Tests of usage sums: worked examples, and plain filters beside the sums.
#![tactic(auto)]

#[cfg(test)]
mod equal;
#[cfg(test)]
mod usage;
