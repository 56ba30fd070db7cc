//! Laws of summaries, which hold of every list of process records.
ghost use Rattle.tally_usage.specs.Laws.{RecordOrderIsFree, RecordsHaveRows, RowsAddUp, RowsAscend};

/// No two rows tie, and each row comes before those that its order puts after it.
pub fn rows_ascend()
    ensures { RowsAscend }
{}

/// Each record is counted by the row of its command, or by that of the others, and by its user's row.
pub fn records_have_rows()
    ensures { RecordsHaveRows }
{}

/// Equal records give equal rows and an equal total, in whatever order they were stored.
pub fn record_order_is_free()
    ensures { RecordOrderIsFree }
{}

/// The rows of a report add up to its total: by command, with the row of the others, and by user.
pub fn rows_add_up()
    ensures { RowsAddUp }
{}
