//! Laws of the rows that count failed logins, which hold of every list of login records.
ghost use Rattle.tally_attempts.specs.Laws.{RecordOrderIsFree, SumsAddUp};

/// All rows together count the chosen failed logins, each once.
pub fn sums_add_up()
    ensures { SumsAddUp }
{}

/// The same records give equal rows, in whatever order they were stored.
pub fn record_order_is_free()
    ensures { RecordOrderIsFree }
{}
