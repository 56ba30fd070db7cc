//! Tests of printed reports and tables, with outputs that are made for them.
#![tactic(auto)]

#[cfg(test)]
mod print;
