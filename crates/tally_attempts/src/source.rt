//! What failed logins are counted by.
ghost use Rattle.std.specs.Prelude.{◌≡◌};
ghost use Rattle.tally_attempts.specs.inside.Counts.{source_of};
ghost use Rattle.tally_attempts.specs.inside.Sources.{same_writes, writes_of};

use std::hash::{Hash, Hasher};
use tally_records::{LoginRecord, Name, Remote, whole_words};

/// A user and a remote host.
#[derive(Clone, Copy, Debug, PartialEq, Eq)]
pub(crate) struct Source {
    pub(crate) user: Name,
    pub(crate) remote: Remote,
}

impl Source {
    /// Those of a record.
    pub(crate) fn of(r: &LoginRecord) -> Source
        ensures { result ≡ source_of r.now }
    {
        Source {
            user: r.user,
            remote: r.remote,
        }
    }
}

/// The words of each text up to its first NUL are hashed in one write.
impl Hash for Source {
    ghost hash_input = { writes_of };

    ghost respects_eq = { same_writes };

    fn hash<H: Hasher>(&self, state: &mut H) {
        state.write(whole_words(&self.user));
        state.write(whole_words(&self.remote));
    }
}
