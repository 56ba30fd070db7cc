//! Which zone the words of a command line name.

use super::answers::{Wanted, expect_all, expect_each};

#[test]
fn a_zone_is_its_word_as_given(rt: HostRuntime) {
    let rows = [
        ("ac f", Wanted::Zone(None)),
        ("ac --zone local f", Wanted::Zone(Some("local"))),
        (
            "last f --zone=Europe/Berlin",
            Wanted::Zone(Some("Europe/Berlin")),
        ),
        (
            "sa --zone CET-1CEST,M3.5.0,M10.5.0/3 f",
            Wanted::Zone(Some("CET-1CEST,M3.5.0,M10.5.0/3")),
        ),
        ("all --zone <+02>-2 w:f", Wanted::Zone(Some("<+02>-2"))),
        ("ac --zone ./zone -d f", Wanted::Zone(Some("./zone"))),
    ];
    expect_each(&rt, &rows);
}

#[test]
fn no_zone_is_taken_with_an_offset_or_without_a_word(rt: HostRuntime) {
    let lines = "\
ac --zone local --east 60 f
last --west 0 --zone UTC f
all --zone UTC --east 0 --west 0 w:f
sa --zone= f
ac --zone
ac --zone UTC --zone UTC f";
    expect_all(&rt, lines, Wanted::Usage);
}
