//! Worked records, and each public function once.
use crate::equal::{expect_at, expect_equal};
use crate::makers::{
    login_of, login_record, proc_of, proc_record, put, record_of_type, repeated, three_records,
    version_3_record,
};
use std::alloc::Global;
use std::process::Abort;
use tally_records::{
    Batch, BatchFault, Event, Key, Kind, List, LoginRecord, Logins, RecordFault, comp, event,
    read_login, read_proc,
};

#[test]
fn compressed_numbers_have_a_base_eight_exponent(rt: HostRuntime) {
    let rt = &rt;
    let cases = [
        (0x0000, 0),
        (0x1FFF, 8191),
        (0x2001, 8),
        (0x3FFF, 65528),
        (0xFFFF, 17_177_772_032),
    ];
    for (word, value) in cases {
        expect_at(rt, u32::from(word), comp(word), value);
    }
}

#[test]
fn a_login_record_is_read_by_its_offsets(rt: HostRuntime) {
    let rt = &rt;
    let bytes = login_record(7, [b"tty1", b"ann\0x", b""], 1_000_000);
    let found = login_of(rt, &bytes);
    let mut wanted = LoginRecord {
        kind: 7,
        line: [0; 32],
        user: [0; 32],
        remote: [0; 256],
        time: 1_000_000,
    };
    put(&mut wanted.line, 0, b"tty1");
    put(&mut wanted.user, 0, b"ann");
    expect_equal(rt, &found, &wanted);
    expect_equal(rt, &event(&found), &Event::Login);
}

#[test]
fn a_type_outside_zero_to_nine_is_refused(rt: HostRuntime) {
    let rt = &rt;
    let mut bytes = record_of_type(10);
    expect_equal(rt, &read_login(&bytes), &Err(RecordFault::LoginType(10)));
    put(&mut bytes, 0, &[255, 255]);
    expect_equal(rt, &read_login(&bytes), &Err(RecordFault::LoginType(-1)));
}

#[test]
fn a_process_record_is_read_by_its_offsets(rt: HostRuntime) {
    let rt = &rt;
    let found = proc_of(rt, &proc_record(2));
    let ticks = [found.user_ticks, found.system_ticks, found.real_ticks];
    expect_equal(rt, &ticks, &[120, 60, 600]);
    let rest = [found.mem, found.io, u64::from(found.uid)];
    expect_equal(rt, &rest, &[500, 1000, 1000]);
    expect_equal(rt, &found.comm, &*b"make\0\0\0\0\0\0\0\0\0\0\0\0\0");
    expect_equal(rt, &proc_of(rt, &version_3_record(0x4416_0000)), &found);
}

#[test]
fn each_word_of_elapsed_time_has_its_ticks(rt: HostRuntime) {
    let rt = &rt;
    let cases = [
        (0x0000_0000, 0),
        (0x3F00_0000, 0),
        (0x3F80_0000, 1),
        (0x3FC0_0000, 1),
        (0x4416_0000, 600),
        (0x5F7F_FFFF, 18_446_742_974_197_923_840),
        (0x5F80_0000, u64::MAX),
        (0x7FC0_0000, u64::MAX),
        (0x0000_0001, 0),
        (0x8000_0000, 0),
        (0xBF80_0000, 0),
    ];
    for (word, ticks) in cases {
        let found = proc_of(rt, &version_3_record(word));
        expect_at(rt, word, found.real_ticks, ticks);
    }
}

#[test]
fn a_name_of_sixteen_bytes_ends_in_a_zero(rt: HostRuntime) {
    let rt = &rt;
    let mut bytes = version_3_record(0);
    put(&mut bytes, 48, b"sixteen-letters!");
    expect_equal(rt, &proc_of(rt, &bytes).comm, &*b"sixteen-letters!\0");
}

#[test]
fn a_big_endian_process_record_is_refused(rt: HostRuntime) {
    for version in [0x82, 0x83, 0, 1, 4] {
        let found = read_proc(&proc_record(version));
        expect_equal(&rt, &found, &Err(RecordFault::ProcVersion(version)));
    }
}

#[test]
fn a_batch_names_its_first_bad_record(rt: HostRuntime) {
    let blocks = [
        record_of_type(7),
        record_of_type(0),
        record_of_type(10),
        record_of_type(11),
    ];
    let wanted = BatchFault::Bad {
        index: 2,
        fault: RecordFault::LoginType(10),
    };
    let refused = Batch::logins(rt.alloc(), blocks.as_flattened()).err();
    expect_equal(&rt, &refused, &Some(wanted));
}

#[test]
fn a_batch_shows_records_as_they_are_read(rt: HostRuntime) {
    let rt = &rt;
    let blocks = three_records();
    let batch = Batch::logins(rt.alloc(), blocks.as_flattened()).expect(rt, "a batch");
    for index in 0..3usize {
        let wanted = login_of(rt, &blocks[index]);
        expect_equal(rt, &batch.login_at(index), &Some(wanted));
    }
    expect_equal(rt, &batch.login_at(3), &None);
    drop(batch);
}

#[test]
fn parts_of_records_are_read_alone(rt: HostRuntime) {
    let rt = &rt;
    let blocks = three_records();
    let logins = Logins::read(rt.alloc(), &blocks).expect(rt, "three records");
    let [first, _, last] = &blocks;
    let line = Key::of(&login_of(rt, first).line);
    let down = login_of(rt, last);
    expect_equal(rt, &logins.len(), &3);
    expect_equal(rt, &logins.get(2), &Some(down));
    expect_equal(rt, &logins.time(2), &Some(7));
    expect_equal(rt, &logins.event(2), &Some(Event::Down));
    expect_equal(rt, &logins.user(2), &Some(down.user));
    let is_line = logins.line_key(0) == Some(line);
    let is_other_user = logins.user_key(0) != logins.user_key(2);
    expect_equal(rt, &[is_line, is_other_user], &[true, true]);
    expect_equal(rt, &logins.get(3), &None);
    drop(logins);
}

/// How many records a batch has, or why it is none.
fn length_of(batch: Result<Batch, BatchFault>) -> Result<usize, BatchFault> {
    let batch = batch?;
    let length = batch.len();
    drop(batch);
    Ok(length)
}

/// Asserts how many records so many zeros hold, or why they are no batch.
fn expect_zeros<R: Abort + AllocGlobal>(rt: &R, count: usize, wanted: &Result<usize, BatchFault>) {
    let zeros = repeated(rt, 0, count);
    let batch = Batch::logins(rt.alloc(), zeros.as_slice());
    drop(zeros);
    expect_equal(rt, &length_of(batch), wanted);
}

#[test]
fn a_batch_holds_up_to_1024_records(rt: HostRuntime) {
    let rt = &rt;
    expect_zeros(rt, 393_216, &Ok(1024));
    expect_zeros(rt, 393_600, &Err(BatchFault::TooMany(1025)));
    expect_zeros(rt, 385, &Err(BatchFault::Length(385)));
    expect_zeros(rt, 0, &Ok(0));
}

#[test]
fn a_batch_of_process_records_shows_them(rt: HostRuntime) {
    let rt = &rt;
    let bytes = proc_record(2);
    let batch = Batch::procs(rt.alloc(), &bytes).expect(rt, "a batch");
    let wanted = proc_of(rt, &bytes);
    expect_equal(rt, &batch.kind(), &Kind::Proc);
    expect_equal(rt, &batch.len(), &1);
    expect_equal(rt, &batch.proc_at(0), &Some(wanted));
    expect_equal(rt, &batch.login_at(0), &None);
    drop(batch);
}

/// Asserts that a copy of a list shows what was pushed.
fn expect_copy(rt: &impl Abort, alloc: Global) {
    let mut list = List::new(alloc);
    list.push(5).expect(rt, "memory");
    list.push(7).expect(rt, "memory");
    let copy = list.try_copy(alloc).expect(rt, "memory");
    drop(list);
    expect_equal(rt, &copy.as_slice(), &[5, 7].as_slice());
    expect_equal(rt, &copy.len(), &2);
    expect_equal(rt, &copy.get(1), &Some(7));
    expect_equal(rt, &copy.get(2), &None);
    drop(copy);
}

/// Asserts that a copy shows what stood in the list, and the list what is pushed later.
fn expect_shared(rt: &impl Abort, alloc: Global, list: &mut List<i32>) {
    let shared = list.try_copy(alloc).expect(rt, "memory");
    list.push(3).expect(rt, "memory");
    expect_equal(rt, &list.as_slice(), &[1, 2, 3].as_slice());
    expect_equal(rt, &shared.as_slice(), &[1, 2].as_slice());
    drop(shared);
}

#[test]
fn a_list_keeps_its_values_in_order(rt: HostRuntime) {
    let rt = &rt;
    let alloc = rt.alloc();
    expect_copy(rt, alloc);
    let values = vec![in alloc; 1, 2].expect(rt, "memory");
    let mut list = List::from_vec(alloc, values).expect(rt, "a list");
    expect_shared(rt, alloc, &mut list);
    drop(list);
}
