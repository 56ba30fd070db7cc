//! Where bytes come from.
ghost use Rattle.std.specs.Prelude.{◌≡◌, ◌+◌, ◌-◌, ◌^◌, ◌<◌, ℕ, Bool, List, Option, true, OnErr, OnOk};
ghost use Rattle.std.specs.Io.{ReadsAtMost};
ghost use Rattle.std.specs.Io.KnownBytes.{ReadConsumes};

use thiserror::Error;

/// An input failed.
#[derive(Debug, PartialEq, Eq, Drop, Error)]
#[error("the input failed")]
pub struct InputFault;

/// A source of bytes.
pub trait Input: Drop {
    // The bytes to come, where they are known: what is known stays so (`bytes`).
    ghost to_come: { Self → Option (List ℕ) };

    ghost can_fail: { Self → Bool };

    // How often it has failed.
    ghost failures: { Self → ℕ };

    /// Takes the next bytes, some as long as there are any and `buf` has room.
    fn take(&mut self, buf: &mut [u8]) -> Result<usize, InputFault>
        requires { failures self.old < 2 ^ 64 - 1 }
        ensures bound { ReadsAtMost result buf.new }
        ensures bytes { ReadConsumes (to_come self.old) (to_come self.new) result buf.new }
        ensures nature { can_fail self.new ≡ can_fail self.old }
        ensures ok { OnOk result (failures self.new ≡ failures self.old) }
        ensures err { OnErr result (failures self.new ≡ failures self.old + 1) }
        ensures cause { OnErr result (can_fail self.old ≡ true) };
}
