//! Command lines: one that is good, one with a file without its prefix, and one with a number out of range.

use crate::stopped::{Stopped, stop};
use std::alloc::{AllocError, Global};
use tally_line::{Line, LineFault, file_word, job_of};

/// The command lines.
const LINES: [&[&str]; 3] = [
    &["ac", "-p", "--feeders", "2", "f", "g"],
    &["all", "w:f", "x:g"],
    &["last", "--feeders", "0", "f"],
];

fn words_of(alloc: Global, given: &[&str]) -> Result<Vec<String>, AllocError> {
    let mut words = Vec::new(alloc);
    for word in given {
        words.push(String::from_str(alloc, word)?)?;
    }
    Ok(words)
}

/// The words, made again where memory was refused.
fn words(alloc: Global, given: &[&str]) -> Result<Vec<String>, AllocError> {
    match words_of(alloc, given) {
        Err(_) => words_of(alloc, given),
        made => made,
    }
}

/// The file word of this index, looked for again where memory was refused.
fn word(alloc: Global, words: &[String], index: usize) -> Result<String, LineFault> {
    match file_word(alloc, words, index) {
        Err(LineFault::Memory) => file_word(alloc, words, index),
        found => found,
    }
}

/// Prints the file word of this index, which has no prefix.
fn print_prefix<R: Print + AllocGlobal>(
    rt: &R,
    words: &[String],
    index: usize,
) -> Result<(), Stopped> {
    let found = word(rt.alloc(), words, index)?;
    let printed = println!(rt; "words: no prefix in {} at {index}", found.as_str());
    drop(found);
    stop(printed)
}

/// Prints what the words were read as.
fn print_read<R: Print + AllocGlobal>(
    rt: &R,
    words: &[String],
    read: &Result<Line, LineFault>,
) -> Result<(), Stopped> {
    match read {
        Ok(
            Line::Run {
                job,
                times: _,
                usage: _,
                apart: _,
                zone: _,
                files,
            },
        ) => stop(println!(rt; "words: {} files, {} feeders", files.len(), job.feeders)),
        Ok(Line::Check(check)) => stop(println!(rt; "words: {} files to check", check.files.len())),
        Ok(Line::Help { text: _ }) => stop(println!(rt; "words: help")),
        Err(LineFault::Usage { text: _ }) => stop(println!(rt; "words: refused")),
        Err(LineFault::Prefix { index }) => print_prefix(rt, words, *index),
        Err(LineFault::Memory) => Err(Stopped::Memory),
    }
}

/// Prints what the words are read as, read again where memory was refused.
fn print_read_words<R: Print + AllocGlobal>(rt: &R, words: &[String]) -> Result<(), Stopped> {
    let read = match job_of(rt.alloc(), words) {
        Err(LineFault::Memory) => job_of(rt.alloc(), words),
        read => read,
    };
    let printed = print_read(rt, words, &read);
    drop(read);
    printed
}

/// Prints what a command line is read as.
fn print_line<R: Print + AllocGlobal>(rt: &R, given: &[&str]) -> Result<(), Stopped> {
    let words = words(rt.alloc(), given)?;
    let printed = print_read_words(rt, words.as_slice());
    drop(words);
    printed
}

/// Prints what each command line is read as.
pub fn print_words<R: Print + AllocGlobal>(rt: &R) -> Result<(), Stopped> {
    for given in LINES {
        print_line(rt, given)?;
    }
    Ok(())
}
