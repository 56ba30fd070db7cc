//! What ends a stay.
use crate::sessions::texts::{Asked, expect};

#[test]
fn reboot_ends_every_open_session_of_its_host(rt: HostRuntime) {
    let script =
        "0 in tty1 a 100;0 in tty2 b 200;0 in tty3 c 300;1 in tty1 d 150;0 boot ~ reboot 1000";
    let told =
        "reboot Still 1000 1000 0;c Crash 300 1000 700;b Crash 200 1000 800;a Crash 100 1000 900;";
    expect(&rt, rt.alloc(), script, Asked::Stays(None), told);
}

#[test]
fn next_login_ends_the_session_on_its_line(rt: HostRuntime) {
    let script = "0 in tty1 ann 1000;0 in tty1 bob 1600;0 out tty1 - 2200";
    for &(limit, told) in &[
        (None, "bob Logout 1600 2200 600;ann Next 1000 1600 600;"),
        (Some(1), "bob Logout 1600 2200 600;"),
        (Some(0), ""),
    ] {
        expect(&rt, rt.alloc(), script, Asked::Stays(limit), told);
    }
}
