//! Laws of tables, over the definitions alone.
ghost use Rattle.std.specs.Prelude.{◌≡◌, ◌<◌, ◌^◌, ℤ, All, Bool, List, map};
ghost use Rattle.csv.specs.Reading.{default_config, records};
ghost use Rattle.csv.specs.Writing.{read_back};
ghost use Rattle.tally_answers.specs.declared.question.Answer.{Answer};
ghost use Rattle.tally_answers.specs.declared.question.ConnectRow.{ConnectRow};
ghost use Rattle.tally_print.specs.ConnectTable.{connect_fields};
ghost use Rattle.tally_print.specs.ReportTable.{report_rows, table_text};
ghost use Rattle.tally_print.specs.Tables.{Row, csv_rows, csv_text, last_number};
ghost use Rattle.tally_print.specs.declared.report_table.Table.{Table};

/// The crate `csv`, by its defaults, reads from a table's text the table's rows and no others.
pub fn a_table_reads_back()
    ensures { (rows : List Row) → records default_config (csv_text rows) ≡ map read_back rows }
{}

/// A reader gets the header and just the rows of a report, field by field.
pub fn reports_read_back()
    ensures { (table : Table) (clock : ℤ → ℤ) (answers : List Answer)
        → csv_rows (table_text table clock answers) ≡ report_rows table clock answers }
{}

/// The last field of each row of connect times says its seconds, to the second.
pub fn seconds_read_back()
    ensures { (by_day by_user : Bool) (rows : List ConnectRow) → All (λ row. row.seconds < 2 ^ 64) rows
        → map last_number (map (connect_fields by_day by_user) rows) ≡ map (λ row. row.seconds) rows }
{}
