//! What words on files that are told apart ask for.

use crate::line::answers::{Wanted, expect_each};
use tally_line::FilesAsked;

const NO_TABLE: &str =
    "error: --paths cannot be used without --csv\n\nFor more information, try '--help'.\n";

const SUMS: &str =
    "error: --paths cannot be used with --sum\n\nFor more information, try '--help'.\n";

const NO_FILES: &str =
    "error: --paths cannot be used without --csv and --by-file\n\nFor more information, try '--help'.\n";

fn apart<'a>(by_file: bool, paths: bool) -> Wanted<'a> {
    Wanted::Apart(FilesAsked { by_file, paths })
}

#[test]
fn a_report_may_tell_its_files_apart(rt: HostRuntime) {
    let rows = [
        ("last --csv f", apart(false, false)),
        ("last --csv --paths f", apart(false, true)),
        ("lastb f --paths --csv", apart(false, true)),
        ("ac --by-file f", apart(true, false)),
        ("ac --by-file --csv --paths f", apart(true, true)),
        ("sa -m --paths --csv f --by-file", apart(true, true)),
        ("all w:f", apart(false, false)),
    ];
    expect_each(&rt, &rows);
}

#[test]
fn paths_are_refused_where_a_row_has_no_file(rt: HostRuntime) {
    let rows = [
        ("last --paths f", Wanted::Refused(NO_TABLE)),
        ("lastb --paths f", Wanted::Refused(NO_TABLE)),
        ("check --paths f", Wanted::Refused(NO_TABLE)),
        ("lastb --paths --sum f", Wanted::Refused(NO_TABLE)),
        ("lastb --csv --paths --sum f", Wanted::Refused(SUMS)),
        ("ac --paths f", Wanted::Refused(NO_FILES)),
        ("ac --paths --csv f", Wanted::Refused(NO_FILES)),
        ("ac --by-file --paths f", Wanted::Refused(NO_FILES)),
        ("sa --paths --csv f", Wanted::Refused(NO_FILES)),
        ("sa -m --paths f", Wanted::Refused(NO_FILES)),
        ("all --paths w:f", Wanted::Usage),
        ("last --by-file f", Wanted::Usage),
    ];
    expect_each(&rt, &rows);
}
