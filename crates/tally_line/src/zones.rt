//! The zone of a command line.
ghost use Rattle.std.specs.Prelude.{◌≡◌, ◌↔◌, IfOk, IsTrue};
ghost use Rattle.clap.specs.Words.{found_of, rows_of};
ghost use Rattle.tally_line.specs.Zones as Spec;
ghost use Rattle.tally_line.specs.Zones.{HasOneClock, IsWritten, IsZoneOf};

use crate::given::text_of;
use clap::ArgMatches;
use clap::parser::ValueSource;
use std::alloc::{AllocError, Global};

/// What is said of a zone beside an offset.
pub(crate) const TWO_CLOCKS: &str =
    "error: --zone cannot be used with --east or --west\n\nFor more information, try '--help'.\n";

/// The word of the zone, as it was given.
pub(crate) fn zone_of(alloc: Global, matches: &ArgMatches<'_>) -> Result<Option<String>, AllocError>
    ensures { IfOk result (IsZoneOf (rows_of (found_of matches.now))) }
{
    text_of(alloc, matches, "zone")
}

/// Whether no offset is written beside a zone.
pub(crate) fn has_one_clock(matches: &ArgMatches<'_>) -> bool
    ensures { IsTrue result ↔ HasOneClock (rows_of (found_of matches.now)) }
{
    !is_written(matches, "zone") || !(is_written(matches, "east") || is_written(matches, "west"))
}

fn is_written(matches: &ArgMatches<'_>, id: &str) -> bool
    ensures { IsTrue result ↔ IsWritten id.now (rows_of (found_of matches.now)) }
{
    matches!(source_of(matches, id), Some(ValueSource::CommandLine))
}

/// Where the value of an option is from.
fn source_of(matches: &ArgMatches<'_>, id: &str) -> Option<ValueSource>
    ensures { result ≡ Spec.source_of id.now (rows_of (found_of matches.now)) }
{
    matches.value_source(id)
}
