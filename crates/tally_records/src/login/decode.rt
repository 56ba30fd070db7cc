ghost use Rattle.std.specs.Prelude.{◌≡◌, ◌≤◌, ◌+◌, ◌*◌, ◌<◌, [], MatchResult, OnOk, OnErr, IfErr, Ok, Err, length, vec_len, vec_capacity};
ghost use Rattle.tally_records.specs.LoginRecord.{login_result};
ghost use Rattle.tally_records.specs.Decoding.{decoded};
ghost use Rattle.tally_records.specs.Records.{NamesRecordBelow};
ghost use Rattle.tally_records.specs.inside.Compact.Decoded.{with};
ghost use Rattle.tally_records.specs.inside.Compact.Layout.{Covers, records};

use crate::fault::{BatchFault, RecordFault};
use crate::login::head::Head;
use crate::login::words::push_text;
use crate::login::{LOGIN_SIZE, kind_of, time_at};

/// The most words of a record.
pub(crate) const RECORD_WORDS: usize = 40;

/// Adds the record of the bytes after those of heads and words that have room for it.
pub(crate) fn decode(
    heads: &mut Vec<Head>,
    words: &mut Vec<u64>,
    bytes: &[u8; LOGIN_SIZE],
) -> Result<(), RecordFault>
    requires covers { Covers heads.old.items words.old.items }
    requires few { vec_len heads.old < 1048576 }
    requires heads { vec_len heads.old < vec_capacity heads.old }
    requires words { vec_len words.old + RECORD_WORDS ≤ vec_capacity words.old }
    ensures exact { MatchResult result
        (λ _. with (records heads.old.items words.old.items) (login_result bytes.now) ≡ Ok (records heads.new.items words.new.items))
        (λ fault. login_result bytes.now ≡ Err fault) }
    ensures covers { OnOk result (Covers heads.new.items words.new.items) }
    ensures count { OnOk result (vec_len heads.new ≡ vec_len heads.old + 1) }
    ensures refused { OnErr result ((heads.new ≡ heads.old) × (words.new ≡ words.old)) }
    ensures capacity { (vec_capacity heads.new ≡ vec_capacity heads.old) × (vec_capacity words.new ≡ vec_capacity words.old) }
{
    let kind = kind_of(bytes)?;
    let start = words.len();
    push_text(words, &bytes[8..40]);
    let user = words.len();
    push_text(words, &bytes[44..76]);
    let remote = words.len();
    push_text(words, &bytes[76..332]);
    heads.push_reserved(Head {
        time: time_at(bytes, 340),
        start: start as u32,
        kind,
        line: (user - start) as u8,
        user: (remote - user) as u8,
        remote: (words.len() - remote) as u8,
    });
    Ok(())
}

/// Decodes all blocks into empty vectors that have room for their records.
pub(crate) fn decode_all(
    heads: &mut Vec<Head>,
    words: &mut Vec<u64>,
    blocks: &[[u8; LOGIN_SIZE]],
) -> Result<(), BatchFault>
    requires no_heads { heads.old.items ≡ [] }
    requires no_words { words.old.items ≡ [] }
    requires few { length blocks.now ≤ 1024 }
    requires heads { length blocks.now ≤ vec_capacity heads.old }
    requires words { RECORD_WORDS * length blocks.now ≤ vec_capacity words.old }
    ensures exact { MatchResult result
        (λ _. decoded login_result 0 blocks.now ≡ Ok (records heads.new.items words.new.items))
        (λ fault. decoded login_result 0 blocks.now ≡ Err fault) }
    ensures covers { OnOk result (Covers heads.new.items words.new.items) }
    ensures count { OnOk result (vec_len heads.new ≡ length blocks.now) }
    ensures place { IfErr result (NamesRecordBelow (length blocks.now)) }
{
    for (index, block) in blocks.iter().enumerate() {
        if let Err(fault) = decode(heads, words, block) {
            return Err(BatchFault::Bad { index, fault });
        }
    }
    Ok(())
}
