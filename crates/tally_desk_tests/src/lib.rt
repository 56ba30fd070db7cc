//! Tests of the desk, with inputs and gates that are made for them.
#![tactic(auto)]

#[cfg(test)]
mod desk;
#[cfg(test)]
mod equal;
