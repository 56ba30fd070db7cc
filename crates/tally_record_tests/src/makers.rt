//! Bytes of records, and what they hold.
use std::process::Abort;
use tally_records::{LoginRecord, ProcRecord, read_login, read_proc};

/// So many of one byte.
pub(crate) fn repeated<R: Abort + AllocGlobal>(rt: &R, byte: u8, count: usize) -> Vec<u8> {
    vec![in rt.alloc(); byte; count].expect(rt, "memory")
}

pub(crate) fn put(bytes: &mut [u8], at: usize, text: &[u8]) {
    for (to, from) in bytes.iter_mut().skip(at).zip(text) {
        *to = *from;
    }
}

/// A login record of utmp(5), whose texts are the line, the user and the remote host.
pub(crate) fn login_record(kind: u8, texts: [&[u8]; 3], time: i32) -> [u8; 384] {
    let mut bytes = [0; 384];
    bytes[0] = kind;
    let [line, user, remote] = texts;
    put(&mut bytes, 8, line);
    put(&mut bytes, 44, user);
    put(&mut bytes, 76, remote);
    put(&mut bytes, 340, &time.to_le_bytes());
    bytes
}

pub(crate) fn proc_record(version: u8) -> [u8; 64] {
    let mut bytes = [0; 64];
    bytes[1] = version;
    put(
        &mut bytes,
        12,
        &[0x78, 0, 0x3c, 0, 0x58, 2, 0xf4, 1, 0xe8, 3],
    );
    put(&mut bytes, 36, b"make");
    put(&mut bytes, 56, &[0xe8, 3]);
    bytes
}

/// The record of `proc_record(2)` as version 3 has it, with this `ac_etime`.
pub(crate) fn version_3_record(elapsed: u32) -> [u8; 64] {
    let mut bytes = [0; 64];
    bytes[1] = 3;
    put(&mut bytes, 8, &[0xe8, 3]);
    put(&mut bytes, 28, &elapsed.to_le_bytes());
    put(&mut bytes, 32, &[0x78, 0, 0x3c, 0, 0xf4, 1, 0xe8, 3]);
    put(&mut bytes, 48, b"make");
    bytes
}

/// A login record of this type, whose texts are empty.
pub(crate) fn record_of_type(kind: u8) -> [u8; 384] {
    login_record(kind, [b"", b"", b""], 0)
}

/// Records whose texts are short, full, end inside a word and at one, and have bytes after their NUL.
pub(crate) fn three_records() -> [[u8; 384]; 3] {
    let short = login_record(7, [b"tty1", b"ann\0x", b"10.0.0.1"], 5);
    let full = login_record(8, [&[255; 32], &[1, 128, 255, 0, 7], &[128; 256]], -1);
    let remote = b"0123456789abcdef\0\0\0\0\0\0\0\0z";
    let words = login_record(1, [b"~", b"shutdown", remote], 7);
    [short, full, words]
}

/// The record that these bytes hold.
pub(crate) fn login_of(rt: &impl Abort, bytes: &[u8; 384]) -> LoginRecord {
    read_login(bytes).expect(rt, "a login record")
}

/// The record that these bytes hold.
pub(crate) fn proc_of(rt: &impl Abort, bytes: &[u8; 64]) -> ProcRecord {
    read_proc(bytes).expect(rt, "a process record")
}
