ghost use Rattle.std.specs.Arc.{arc_value};
ghost use Rattle.std.specs.Prelude.{◌≡◌, ◌≤◌, ◌<◌, ◌+◌, ◌/◌, ◌%◌, MatchOption, MatchResult, OnOk, IfOk, IfErr, IfSome, All, Ok, Err, [], length, vec_len, vec_capacity};
ghost use Rattle.tally_records.specs.Decoding.{decoded};
ghost use Rattle.tally_records.specs.PackedProc.{unpacked};
ghost use Rattle.tally_records.specs.ProcRecord.{IsBounded, proc_result};
ghost use Rattle.tally_records.specs.Records.{NamesRecordBelow};
ghost use Rattle.tally_records.specs.inside.Lengths.{IsWrongLength};

use crate::fault::{BatchFault, Memory};
use crate::login::failed::check_failed;
use crate::login::logins::Logins;
use crate::login::{LOGIN_SIZE, LoginRecord};
use crate::process::packed::{PackedProc, pack};
use crate::process::{PROC_SIZE, ProcRecord};
use std::alloc::Global;
use std::marker::Model;
use std::sync::Arc;

/// The most records that a batch holds.
pub const BATCH_LIMIT: usize = 1024;

/// The kinds of files.
#[derive(Clone, Copy, Debug, PartialEq, Eq)]
pub enum Kind {
    /// Login records of utmp(5), as wtmp files have them. A batch of login records is of this kind.
    Login,
    /// Login records of utmp(5) that are failed logins, as btmp files have them.
    FailedLogin,
    /// Process records of acct(5).
    Proc,
}

#[derive(Drop)]
enum Items {
    Logins(Arc<Logins, Global>),
    Procs(Arc<Vec<PackedProc>, Global>),
}

/// At most 1,024 records of one kind.
#[derive(Drop)]
pub struct Batch {
    items: Items,
}

impl Model for Batch {
    ghost use Rattle.tally_records.specs.Records.{Records};

    ghost Value = { Records };

    ghost use Rattle.tally_records.specs.inside.Items.{records_of, IsSound};

    ghost view = { λ b. records_of b.items };

    ghost invariant = { λ b. IsSound b.items };
}

/// How many records of one size the bytes are, or why they are no batch.
fn count_records(bytes: &[u8], size: usize) -> Result<usize, BatchFault>
    requires { 0 < size }
    ensures count { IfOk result (λ count. count ≡ length bytes.now / size) }
    ensures whole { OnOk result (length bytes.now % size ≡ 0) }
    ensures limit { OnOk result (length bytes.now / size ≤ BATCH_LIMIT) }
    ensures cause { IfErr result (IsWrongLength size (length bytes.now)) }
{
    if bytes.len() % size != 0 {
        return Err(BatchFault::Length(bytes.len()));
    }
    let count = bytes.len() / size;
    if count > BATCH_LIMIT {
        return Err(BatchFault::TooMany(count));
    }
    Ok(count)
}

/// Reads all process records into a vector that has room for them, in one pass.
fn pack_procs(blocks: &[[u8; PROC_SIZE]], records: &mut Vec<PackedProc>) -> Result<(), BatchFault>
    requires empty { records.old.items ≡ [] }
    requires room { length blocks.now ≤ vec_capacity records.old }
    ensures count { OnOk result (vec_len records.new ≡ length blocks.now) }
    ensures bounded { OnOk result (All IsBounded (unpacked records.new.items)) }
    ensures exact { MatchResult result
        (λ _. decoded proc_result 0 blocks.now ≡ Ok (unpacked records.new.items))
        (λ fault. decoded proc_result 0 blocks.now ≡ Err fault) }
    ensures place { IfErr result (NamesRecordBelow (length blocks.now)) }
{
    for (index, block) in blocks.iter().enumerate() {
        match pack(block) {
            Ok(record) => records.push_reserved(record),
            Err(fault) => return Err(BatchFault::Bad { index, fault }),
        }
    }
    Ok(())
}

impl Batch {
    ghost use Rattle.tally_records.specs.declared.batch.Kind.TheVariants.{Login, Proc};
    ghost use Rattle.tally_records.specs.Records.{Records, Logins as as_logins, Procs as as_procs, IsAnswer, failed_logins_of, logins_of, procs_of, IsLogins, IsProcs, record_count, procs_in, login_at, proc_at, kind_of};

    /// The login records of these bytes, `LOGIN_SIZE` bytes each. An empty slice is an empty batch.
    pub fn logins(alloc: Global, bytes: &[u8]) -> Result<Batch, BatchFault>
        ensures exact { IsAnswer result (logins_of bytes.now) }
        ensures kind { IfOk result IsLogins }
        ensures place { IfErr result (NamesRecordBelow (length bytes.now / LOGIN_SIZE)) }
    {
        count_records(bytes, LOGIN_SIZE)?;
        let (blocks, _) = bytes.as_chunks::<LOGIN_SIZE>();
        match Arc::new(alloc, Logins::read(alloc, blocks)?) {
            Ok(records) => Ok(Batch {
                items: Items::Logins(records),
            }),
            Err(_) => Err(BatchFault::Memory),
        }
    }

    /// The login records of these bytes, `LOGIN_SIZE` bytes each, where all are of types that failed logins have. An empty slice is an
    /// empty batch.
    pub fn failed_logins(alloc: Global, bytes: &[u8]) -> Result<Batch, BatchFault>
        ensures exact { IsAnswer result (failed_logins_of bytes.now) }
        ensures kind { IfOk result IsLogins }
        ensures place { IfErr result (NamesRecordBelow (length bytes.now / LOGIN_SIZE)) }
    {
        count_records(bytes, LOGIN_SIZE)?;
        let (blocks, _) = bytes.as_chunks::<LOGIN_SIZE>();
        check_failed(blocks)?;
        Batch::logins(alloc, bytes)
    }

    /// The process records of these bytes, `PROC_SIZE` bytes each. An empty slice is an empty batch.
    pub fn procs(alloc: Global, bytes: &[u8]) -> Result<Batch, BatchFault>
        ensures exact { IsAnswer result (procs_of bytes.now) }
        ensures kind { IfOk result IsProcs }
        ensures place { IfErr result (NamesRecordBelow (length bytes.now / PROC_SIZE)) }
    {
        let count = count_records(bytes, PROC_SIZE)?;
        let Ok(mut records) = Vec::with_capacity(alloc, count) else {
            return Err(BatchFault::Memory);
        };
        let (blocks, _) = bytes.as_chunks::<PROC_SIZE>();
        pack_procs(blocks, &mut records)?;
        match Arc::new(alloc, records) {
            Ok(records) => Ok(Batch {
                items: Items::Procs(records),
            }),
            Err(_) => Err(BatchFault::Memory),
        }
    }

    /// What kind of records it holds.
    pub fn kind(&self) -> Kind
        ensures { result ≡ kind_of self.now }
    {
        match &self.items {
            Items::Logins(_) => Kind::Login,
            Items::Procs(_) => Kind::Proc,
        }
    }

    /// How many records it holds.
    pub fn len(&self) -> usize
        ensures count { result ≡ record_count self.now }
        ensures limit { result ≤ BATCH_LIMIT }
        ensures bounded { All IsBounded (procs_in self.now) }
    {
        match &self.items {
            Items::Logins(records) => records.len(),
            Items::Procs(records) => records.len(),
        }
    }

    /// The login record at a place, counted from 0.
    pub fn login_at(&self, index: usize) -> Option<LoginRecord>
        ensures { result ≡ login_at self.now index }
    {
        match &self.items {
            Items::Logins(records) => records.get(index),
            Items::Procs(_) => None,
        }
    }

    /// Its login records, where it is a batch of these, shared with it. It errs where memory runs out.
    pub fn share_logins(&self) -> Result<Option<Arc<Logins, Global>>, Memory>
        ensures { IfOk result (λ shared. MatchOption shared (kind_of self.now ≡ Proc) (λ records. self.now ≡ as_logins (arc_value records))) }
    {
        match &self.items {
            Items::Logins(records) => Ok(Some(Arc::try_clone(records)?)),
            Items::Procs(_) => Ok(None),
        }
    }

    /// Its process records, where it is a batch of these, shared with it. It errs where memory runs out.
    pub fn share_procs(&self) -> Result<Option<Arc<Vec<PackedProc>, Global>>, Memory>
        ensures { IfOk result (λ shared. MatchOption shared (kind_of self.now ≡ Login) (λ records. self.now ≡ as_procs (unpacked (arc_value records).items))) }
    {
        match &self.items {
            Items::Logins(_) => Ok(None),
            Items::Procs(records) => Ok(Some(Arc::try_clone(records)?)),
        }
    }

    /// The process record at a place, counted from 0.
    pub fn proc_at(&self, index: usize) -> Option<ProcRecord>
        ensures value { result ≡ proc_at self.now index }
        ensures bounded { IfSome result IsBounded }
    {
        match &self.items {
            Items::Logins(_) => None,
            Items::Procs(records) => Some(records.get(index)?.record()),
        }
    }

    /// All its process records, as it keeps them.
    pub fn packed_procs(&self) -> &[PackedProc]
        ensures { unpacked result.now ≡ procs_in self.now }
    {
        match &self.items {
            Items::Logins(_) => &[],
            Items::Procs(records) => records.as_slice(),
        }
    }
}
