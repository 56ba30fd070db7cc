//! Which files the words of a command line name.

use super::answers::{Wanted, expect_all, expect_line, words_of};
use crate::expect::{expect_that, made};
use std::process::Abort;
use tally_line::file_word;
use tally_records::Kind;

#[test]
fn prefixes_tell_the_kinds_of_files_of_all(rt: HostRuntime) {
    let files = [
        (Kind::Login, "a"),
        (Kind::Proc, "b"),
        (Kind::Login, "p:c"),
        (Kind::Proc, ""),
    ];
    expect_line(&rt, "all w:a p:b w:p:c p:", Wanted::Files(&files));
}

// Asserts that a line names three files of this kind.
fn expect_three<R: AllocGlobal + Abort>(rt: &R, line: &str, kind: Kind) {
    let files = [(kind, "a"), (kind, "w:b"), (kind, "-c")];
    expect_line(rt, line, Wanted::Files(&files));
}

#[test]
fn a_report_tells_the_kind_of_its_files(rt: HostRuntime) {
    expect_three(&rt, "ac a w:b -- -c", Kind::Login);
    expect_three(&rt, "last a -n 1 w:b -- -c", Kind::Login);
    expect_three(&rt, "sa a -n w:b -- -c", Kind::Proc);
    expect_three(&rt, "sa -m a w:b -- -c", Kind::Proc);
}

#[test]
fn a_report_need_not_name_a_file(rt: HostRuntime) {
    let lines = "\
last
lastb --sum
ac -d
sa -m";
    expect_all(&rt, lines, Wanted::Files(&[]));
}

#[test]
fn files_of_a_letter_stand_among_the_others(rt: HostRuntime) {
    let files = [(Kind::Login, "a"), (Kind::Login, "b"), (Kind::Login, "c")];
    let lines = "\
last a -f b c
last -f a -fb -p @5 c
ac -f a b --csv -f=c
ac -dfa -- b c";
    expect_all(&rt, lines, Wanted::Files(&files));
}

// Asserts that the first file of a line without a prefix is the one at this index, and its word.
fn expect_bare<R: AllocGlobal + Abort>(rt: &R, line: &str, at: usize, bare: &str) {
    expect_line(rt, line, Wanted::Prefix(at));
    let words = words_of(rt, line);
    let word = made(rt, file_word(rt.alloc(), words.as_slice(), at));
    expect_that(rt, line, word.as_str() == bare);
}

#[test]
fn the_first_file_without_a_prefix_is_named(rt: HostRuntime) {
    expect_bare(&rt, "all x:f", 0, "x:f");
    expect_bare(&rt, "all w:a --east 1 f p:b g", 1, "f");
    expect_bare(&rt, "all w:a p:b -- w", 2, "w");
}
