//! Where callers sleep until their turns are near.
ghost use Rattle.std.specs.Prelude.{◌≡◌, ◌<◌, ◌↔◌, IfOk, IsSome, vec_len};

use std::alloc::Global;
use std::sync::Wait;
use std::thread::Parker;
use std::time::Duration;
use tally_records::Memory;

/// A place to sleep for each caller, by its ticket. Whoever wakes looks for its turn again, so that
/// no answer rests on who is woken and when.
#[derive(Drop)]
pub struct Sleepers {
    places: Vec<Parker>,
}

impl Sleepers {
    /// Places for so many callers, each with one ticket at most.
    pub fn new(alloc: Global, callers: u32) -> Result<Sleepers, Memory>
        ensures { IfOk result (λ sleepers. vec_len sleepers.places ≡ callers) }
    {
        let mut places = Vec::with_capacity(alloc, callers as usize)?;
        for _ in 0..callers {
            places.push(Parker::new())?;
        }
        Ok(Sleepers { places })
    }

    /// The place of the caller with this ticket.
    fn place(&self, ticket: u64) -> Option<&Parker>
        ensures { IsSome result ↔ (0 < vec_len self.now.places) }
    {
        let place = ticket.checked_rem(self.places.len() as u64)?;
        self.places.get(place as usize)
    }

    /// Sleeps until it is woken, or for this long at most.
    pub fn sleep<R: Wait>(&self, rt: &R, ticket: u64, longest: Duration) {
        if let Some(place) = self.place(ticket) {
            place.park_timeout(rt, longest);
        }
    }

    /// Wakes the caller with this ticket, or keeps it from its next sleep.
    pub fn wake(&self, ticket: u64) {
        if let Some(place) = self.place(ticket) {
            place.unpark();
        }
    }
}
