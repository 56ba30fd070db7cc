//! A law of what is printed of moments.
ghost use Rattle.tally_print.specs.Laws.{MomentsHaveTheirDays};

/// A moment is printed with the date of the day under which connect time by day counts its second,
/// on every clock.
pub fn moments_have_their_days()
    ensures { MomentsHaveTheirDays }
{}
