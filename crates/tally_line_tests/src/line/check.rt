//! What the words of `check` ask for.

use crate::line::answers::{Checked, Wanted, expect_all, expect_each};
use tally_line::Form;

#[test]
fn a_check_has_its_form_its_clock_and_its_paths(rt: HostRuntime) {
    let plain = Checked {
        form: Form::Text,
        paths: false,
        offset: 0,
        zone: None,
        files: &["f"],
    };
    let table = Checked {
        form: Form::Csv,
        paths: true,
        offset: 60,
        zone: None,
        files: &["a", "w:b", "-c"],
    };
    let zoned = Checked {
        zone: Some("Europe/Berlin"),
        ..plain
    };
    let rows = [
        ("check f", Wanted::Check(plain)),
        (
            "check a --east 90 --paths w:b --west 30 --csv -- -c",
            Wanted::Check(table),
        ),
        ("check --zone Europe/Berlin f", Wanted::Check(zoned)),
    ];
    expect_each(&rt, &rows);
}

#[test]
fn a_check_wants_a_file_and_takes_no_option_of_reports_alone(rt: HostRuntime) {
    let lines = "\
check
check --csv --zone UTC
check -f f
check --feeders 2 f
check --csv --by-file f
check --user ann f
check --in 2026 f
check --until now f
check --east +60 f
check --zone UTC --east 0 f";
    expect_all(&rt, lines, Wanted::Usage);
}
