//! Tables of each file by itself.
ghost use Rattle.std.specs.Prelude.{All};
ghost use Rattle.tally_answers.specs.Answers.{HasDay};

use super::{command, is_printed, name};
use std::alloc::Global;
use std::process::Abort;
use tally_answers::ConnectRow;
use tally_print::{
    FileColumns, FileTable, Kept, print_file_commands, print_file_connect, print_file_header,
    print_file_users,
};
use tally_usage::{UidRow, Usage};

const USAGE: Usage = Usage {
    count: 3,
    real: 720,
    cpu: 300,
    io: 1006,
    mem_cpu: 114_000,
};

/// The second file, with a path that has a comma, a quote and a byte that does not print.
const SECOND: FileColumns<'static> = FileColumns {
    number: 2,
    path: Some("a,\"b\x1B"),
};

/// The connect time of ann.
fn of_ann() -> ConnectRow
    ensures { HasDay result }
{
    ConnectRow {
        day: None,
        user: Some(name(b"ann")),
        seconds: 600,
    }
}

/// Asserts that the connect times of a file, after their header, are printed so by user or as the total alone.
fn expect_connect(
    rt: &impl Abort,
    alloc: Global,
    file: FileColumns<'_>,
    by_user: bool,
    text: &[u8],
) {
    let table = FileTable::Connect {
        by_day: false,
        by_user,
    };
    let rows = [of_ann()];
    let mut out = Kept::new(alloc);
    let mut printed = print_file_header(table, file.path.is_some(), &mut out);
    if printed.is_ok() {
        printed = print_file_connect(alloc, file, false, by_user, &rows, 601, &mut out);
    }
    is_printed(rt, printed, out, text);
}

#[test]
fn connect_times_stand_after_the_columns_of_their_file(rt: HostRuntime) {
    let rt = &rt;
    let alloc = rt.alloc();
    let numbered = FileColumns {
        number: 3,
        path: None,
    };
    expect_connect(rt, alloc, numbered, true, b"file,user,seconds\n3,ann,600\n");
    expect_connect(rt, alloc, numbered, false, b"file,seconds\n3,601\n");
    let text = b"file,path,seconds\n2,\"a,\"\"b?\",601\n";
    expect_connect(rt, alloc, SECOND, false, text);
}

#[test]
fn usage_stands_after_the_columns_of_its_file(rt: HostRuntime) {
    let rt = &rt;
    let alloc = rt.alloc();
    let commands = [
        command(b"make", true, false, USAGE),
        command(b"cc", false, false, USAGE),
    ];
    let users = [UidRow {
        uid: 1000,
        usage: USAGE,
    }];
    let text = b"\
file,path,command,forked,other,calls,real_ticks,cpu_ticks,io,mem_cpu
2,\"a,\"\"b?\",make,1,0,3,720,300,1006,114000
2,\"a,\"\"b?\",cc,0,0,3,720,300,1006,114000
2,\"a,\"\"b?\",1000,3,720,300,1006,114000
";
    let mut out = Kept::new(alloc);
    let mut printed = print_file_header(FileTable::Commands, true, &mut out);
    if printed.is_ok() {
        printed = print_file_commands(alloc, SECOND, &commands, &mut out);
    }
    if printed.is_ok() {
        printed = print_file_users(alloc, SECOND, &users, &mut out);
    }
    is_printed(rt, printed, out, text);
}
