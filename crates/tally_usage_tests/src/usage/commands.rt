//! The rows by command, worked by hand.
use super::{BELL, EXECUTED, FORKED, MAKE, OTHER, Wanted, expect, makes, proc_record};
use tally_usage::{CommandRow, Order, Usage};

/// The run of make that executed, joined to the others.
const JOINED: CommandRow = CommandRow {
    name: OTHER,
    forked: false,
    other: true,
    usage: EXECUTED,
};

/// The same by its own name.
const NAMED: CommandRow = CommandRow {
    name: MAKE,
    forked: false,
    other: false,
    usage: EXECUTED,
};

/// The runs of make that only forked.
const FORKS: CommandRow = CommandRow {
    name: MAKE,
    forked: true,
    other: false,
    usage: FORKED,
};

#[test]
fn a_command_of_one_run_is_joined_to_the_others(rt: HostRuntime) {
    let wanted = Wanted::Commands(Order::Cpu, [false, false], &[JOINED, FORKS]);
    expect(&rt, rt.alloc(), &makes(), wanted);
}

#[test]
fn the_command_of_most_calls_comes_first(rt: HostRuntime) {
    let wanted = Wanted::Commands(Order::Calls, [false, false], &[FORKS, JOINED]);
    expect(&rt, rt.alloc(), &makes(), wanted);
}

#[test]
fn a_reversed_answer_is_the_reversed_list(rt: HostRuntime) {
    let wanted = Wanted::Commands(Order::Cpu, [false, true], &[FORKS, JOINED]);
    expect(&rt, rt.alloc(), &makes(), wanted);
}

#[test]
fn all_commands_keep_their_names(rt: HostRuntime) {
    let wanted = Wanted::Commands(Order::Cpu, [true, false], &[NAMED, FORKS]);
    expect(&rt, rt.alloc(), &makes(), wanted);
}

/// Two commands of a bell, joined.
const BELLS: CommandRow = CommandRow {
    name: OTHER,
    forked: false,
    other: true,
    usage: Usage {
        count: 2,
        real: 2,
        cpu: 0,
        io: 4,
        mem_cpu: 0,
    },
};

#[test]
fn commands_that_do_not_print_are_joined(rt: HostRuntime) {
    let bell = proc_record(0, 0, [0, 0, 1, 7, 2], BELL);
    let wanted = Wanted::Commands(Order::Cpu, [false, false], &[BELLS]);
    expect(&rt, rt.alloc(), &[bell, bell], wanted);
}
