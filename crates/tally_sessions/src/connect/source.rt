//! Sources of sessions.
ghost use Rattle.std.specs.Prelude.{◌≡◌, List, [], ◌∷◌, IfNone, IfSome};
ghost use Rattle.tally_sessions.specs.declared.sums.Session.{Session as Counted};

use crate::sums::Session;

/// A source of sessions, one after the other.
pub(crate) trait SessionSource {
    // The sessions that are ahead, in order.
    ghost ahead: { Self → List Counted };

    /// The next session, if there is one more.
    fn next_session(&mut self) -> Option<Session>
        ensures next { IfSome result (λ s. ahead self.old ≡ s ∷ ahead self.new) }
        ensures end { IfNone result (ahead self.old ≡ []) };
}
