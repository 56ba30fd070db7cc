//! A part of time.
ghost use Rattle.std.specs.Prelude.{◌≡◌, None};
ghost use Rattle.tally_records.specs.Period.{always, is_always, is_within};

/// From a second up to another, which is not in it, in seconds since 1970; without the one or the other, with no beginning or end.
#[derive(Clone, Copy, Debug, PartialEq, Eq)]
pub struct Period {
    pub from: Option<i64>,
    pub to: Option<i64>,
}

/// All time.
pub const ALWAYS: Period = Period {
    from: None,
    to: None,
};

impl Period {
    /// All time.
    pub fn always() -> Period
        ensures { result ≡ always }
    {
        ALWAYS
    }

    /// Whether it has neither a beginning nor an end.
    pub fn is_always(&self) -> bool
        ensures { result ≡ is_always self.now }
    {
        self.from.is_none() && self.to.is_none()
    }

    /// Whether a second is in it.
    pub fn has(&self, time: i64) -> bool
        ensures { result ≡ is_within self.now time }
    {
        let has_begun = match self.from {
            Some(from) => from <= time,
            None => true,
        };
        let is_over = match self.to {
            Some(to) => to <= time,
            None => false,
        };
        has_begun && !is_over
    }
}
