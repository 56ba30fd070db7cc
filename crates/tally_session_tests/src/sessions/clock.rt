//! What clock changes do to stays.
use crate::sessions::texts::{Asked, expect_each};

#[test]
fn clock_pair_moves_the_start(rt: HostRuntime) {
    let table = &[
        (
            "0 in tty1 ann 1000;0 old ~ - 2000;0 new ~ - 5000;0 out tty1 - 6000",
            "ann Logout 4000 6000 2000;",
        ),
        (
            "0 old ~ - 2000;0 in tty1 ann 1000;0 new ~ - 5000;0 out tty1 - 6000",
            "ann Logout 4000 6000 2000;",
        ),
        (
            "0 in tty1 ann 1000;0 old ~ - 2000;0 new ~ - 5000;0 new ~ - 5500;0 out tty1 - 6000",
            "ann Logout 4000 6000 2000;",
        ),
        (
            "0 in tty1 ann 1000;0 old ~ - 2000;0 new ~ - 5000",
            "ann Still 4000 5000 1000;",
        ),
        (
            "0 in tty1 ann 1000;0 new ~ - 5000;0 out tty1 - 6000",
            "ann Logout 1000 6000 5000;",
        ),
    ];
    expect_each(&rt, rt.alloc(), Asked::Stays(None), table);
}

#[test]
fn start_is_clamped_and_a_backward_session_has_no_length(rt: HostRuntime) {
    let table = &[
        (
            "0 in tty1 ann 0;0 old ~ - -2147483648;0 new ~ - 2147483647;0 out tty1 - 2147483647",
            "ann Logout 2147483647 2147483647 0;",
        ),
        (
            "0 in tty1 ann 0;0 old ~ - 2147483647;0 new ~ - -2147483648;0 out tty1 - 2147483647",
            "ann Logout -2147483648 2147483647 4294967295;",
        ),
        (
            "0 in tty1 ann 0;0 out tty1 - -1000",
            "ann Logout 0 -1000 0;",
        ),
    ];
    expect_each(&rt, rt.alloc(), Asked::Stays(None), table);
}
