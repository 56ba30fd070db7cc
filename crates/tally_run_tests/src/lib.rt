//! Tests of whole runs, with inputs, outputs and gates that are made for them.
#![tactic(auto)]

#[cfg(test)]
mod cli;
