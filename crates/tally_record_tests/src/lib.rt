//! Tests of records and the book: worked examples, each public function once, and limits.
#![tactic(auto)]

#[cfg(test)]
mod attempts;
#[cfg(test)]
mod book;
#[cfg(test)]
mod equal;
#[cfg(test)]
mod failed;
#[cfg(test)]
mod hosts;
#[cfg(test)]
mod makers;
#[cfg(test)]
mod records;
