ghost use Rattle.std.specs.Prelude.{◌≡◌, ◌≤◌, ◌<◌, ◌+◌, ◌++◌, [], length, option_map, take, slice_get, Some, IfOk, IfErr, IfSome, OnOk, OnErr};
ghost use Rattle.tally_records.specs.Decoding.{decoded, IsRead};
ghost use Rattle.tally_records.specs.Event.{event_of};
ghost use Rattle.tally_records.specs.LoginRecord.{login_result};
ghost use Rattle.tally_records.specs.Records.{NamesRecordBelow};
ghost use Rattle.tally_records.specs.inside.Compact.Layout.{IsHead, record_at, size};

use crate::batch::BATCH_LIMIT;
use crate::fault::BatchFault;
use crate::field::{Name, Remote};
use crate::login::decode::{RECORD_WORDS, decode_all};
use crate::login::events::event_at;
use crate::login::head::{Head, head_at, line_words, record, user_of, user_words};
use crate::login::key::Key;
use crate::login::texts::put_texts;
use crate::login::{Event, LOGIN_SIZE, LoginRecord};
use std::alloc::Global;
use std::marker::Model;

/// Login records, kept without the zeros after their texts.
#[derive(Drop)]
pub struct Logins {
    heads: Vec<Head>,
    words: Vec<u64>,
}

impl Model for Logins {
    ghost use Rattle.std.specs.Prelude.{List};
    ghost use Rattle.tally_records.specs.declared.login.LoginRecord.{LoginRecord as Record};

    ghost Value = { List Record };

    ghost use Rattle.tally_records.specs.inside.Compact.Kept.{records_of, IsSound};

    ghost view = { records_of };

    ghost invariant = { IsSound };
}

impl Logins {
    /// The records of the blocks, or the first block that is none.
    pub fn read(alloc: Global, blocks: &[[u8; LOGIN_SIZE]]) -> Result<Logins, BatchFault>
        requires { length blocks.now ≤ BATCH_LIMIT }
        ensures exact { IsRead (decoded login_result 0 blocks.now) result }
        ensures count { IfOk result (λ records. length records ≡ length blocks.now) }
        ensures place { IfErr result (NamesRecordBelow (length blocks.now)) }
    {
        let Ok(mut heads) = Vec::with_capacity(alloc, blocks.len()) else {
            return Err(BatchFault::Memory);
        };
        let Ok(mut words) = Vec::with_capacity(alloc, RECORD_WORDS * blocks.len()) else {
            return Err(BatchFault::Memory);
        };
        decode_all(&mut heads, &mut words, blocks)?;
        match Vec::from_slice(alloc, words.as_slice()) {
            Ok(words) => Ok(Logins { heads, words }),
            Err(_) => Err(BatchFault::Memory),
        }
    }

    /// How many there are.
    pub fn len(&self) -> usize
        ensures { result ≡ length self.now }
    {
        self.heads.len()
    }

    /// All words, and the head at a place.
    fn part(&self, index: usize) -> Option<(&[u64], Head)>
        ensures within { IfSome result (λ p. p.1.start + size p.1 ≤ length p.0.now) }
        ensures small { IfSome result (λ p. IsHead p.1) }
        ensures value { option_map (λ p. record_at p.0.now p.1) result ≡ slice_get self.now index }
    {
        let head = head_at(self.heads.as_slice(), index)?;
        Some((self.words.as_slice(), head))
    }

    /// The record at a place, counted from 0.
    pub fn get(&self, index: usize) -> Option<LoginRecord>
        ensures { result ≡ slice_get self.now index }
    {
        let (words, head) = self.part(index)?;
        Some(record(words, head))
    }

    /// Writes the texts of a record over others: its line, its user and its remote host.
    pub fn put_texts(&self, index: usize, line: &mut Name, user: &mut Name, remote: &mut Remote)
        requires { index < length self.now }
        ensures line { option_map (λ r. r.line) (slice_get self.now index) ≡ Some line.new }
        ensures user { option_map (λ r. r.user) (slice_get self.now index) ≡ Some user.new }
        ensures remote { option_map (λ r. r.remote) (slice_get self.now index) ≡ Some remote.new }
    {
        let (words, head) = self.part(index).unwrap();
        put_texts(words, head, line, user, remote);
    }

    /// The type of a record, `ut_type` of utmp(5).
    pub fn kind(&self, index: usize) -> Option<u8>
        ensures { result ≡ option_map (λ r. r.kind) (slice_get self.now index) }
    {
        let head = head_at(self.heads.as_slice(), index)?;
        Some(head.kind)
    }

    /// When a record was written.
    pub fn time(&self, index: usize) -> Option<i32>
        ensures { result ≡ option_map (λ r. r.time) (slice_get self.now index) }
    {
        let head = head_at(self.heads.as_slice(), index)?;
        Some(head.time)
    }

    /// The user of a record.
    pub fn user(&self, index: usize) -> Option<Name>
        ensures { result ≡ option_map (λ r. r.user) (slice_get self.now index) }
    {
        let (words, head) = self.part(index)?;
        Some(user_of(words, head))
    }

    /// The event of a record.
    pub fn event(&self, index: usize) -> Option<Event>
        ensures { result ≡ option_map event_of (slice_get self.now index) }
    {
        let (words, head) = self.part(index)?;
        Some(event_at(words, head))
    }

    /// The line of a record, as a key.
    #[tactic(auto, unfolding(crate::specs::inside::Compact::Layout::record_at))]
    pub fn line_key(&self, index: usize) -> Option<Key>
        ensures { result ≡ option_map (λ r. r.line) (slice_get self.now index) }
    {
        let (words, head) = self.part(index)?;
        Some(Key::of_words(line_words(words, head)))
    }

    /// The user of a record, as a key.
    #[tactic(auto, unfolding(crate::specs::inside::Compact::Layout::record_at))]
    pub fn user_key(&self, index: usize) -> Option<Key>
        ensures { result ≡ option_map (λ r. r.user) (slice_get self.now index) }
    {
        let (words, head) = self.part(index)?;
        Some(Key::of_words(user_words(words, head)))
    }
}
