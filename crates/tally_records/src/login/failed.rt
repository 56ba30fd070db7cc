//! Which blocks are records of failed logins.
ghost use Rattle.std.specs.Prelude.{◌≡◌, IfErr, MatchResult, OnOk, Ok, Err, length};
ghost use Rattle.tally_records.specs.Decoding.{decoded};
ghost use Rattle.tally_records.specs.FailedLogin.{failed_result, is_failed_type};
ghost use Rattle.tally_records.specs.LoginRecord.{login_fields, login_result};
ghost use Rattle.tally_records.specs.Records.{NamesRecordBelow};

use crate::fault::{BatchFault, RecordFault};
use crate::login::{LOGIN_SIZE, kind_of};

/// Whether records of failed logins have a type.
fn is_failed_type(kind: u8) -> bool
    ensures { result ≡ is_failed_type kind }
{
    kind == 0 || kind == 6 || kind == 7
}

/// Whether a block is a record of a failed login, or why it is none.
fn check_block(block: &[u8; LOGIN_SIZE]) -> Result<(), RecordFault>
    ensures exact { MatchResult result
        (λ _. failed_result block.now ≡ Ok (login_fields block.now))
        (λ fault. failed_result block.now ≡ Err fault) }
    ensures login { OnOk result (login_result block.now ≡ Ok (login_fields block.now)) }
{
    let kind = kind_of(block)?;
    if !is_failed_type(kind) {
        return Err(RecordFault::OtherLogin(kind));
    }
    Ok(())
}

/// Whether all blocks are records of failed logins, or the first that is none.
pub(crate) fn check_failed(blocks: &[[u8; LOGIN_SIZE]]) -> Result<(), BatchFault>
    ensures exact { MatchResult result
        (λ _. decoded failed_result 0 blocks.now ≡ decoded login_result 0 blocks.now)
        (λ fault. decoded failed_result 0 blocks.now ≡ Err fault) }
    ensures place { IfErr result (NamesRecordBelow (length blocks.now)) }
{
    for (index, block) in blocks.iter().enumerate() {
        if let Err(fault) = check_block(block) {
            return Err(BatchFault::Bad { index, fault });
        }
    }
    Ok(())
}
