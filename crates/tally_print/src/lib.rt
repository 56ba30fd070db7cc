//! The exact lines of reports, and the outputs that they are written to.
#![tactic(auto)]

mod all_attempts;
mod answer;
mod attempt_table;
mod attempts;
mod beginning;
mod connect;
mod connect_table;
mod date;
mod fields;
mod file_columns;
mod file_usage;
mod kept;
mod last;
mod laws;
mod lines;
mod local;
mod named_users;
mod output;
mod part_table;
mod path_fields;
mod path_table;
mod plain;
mod printed_day;
mod put;
mod report_table;
mod section;
mod sections;
mod stay_table;
mod stays;
mod tables;
mod text;
mod usage;
mod usage_table;
mod writing;

pub use all_attempts::{print_all_attempts, print_attempt_table};
pub use answer::print_answer;
pub use attempts::{print_attempt_sums, print_attempts};
pub use connect::print_connect;
pub use date::day_text_is_that_of_jiff;
pub use file_columns::FileColumns;
pub use file_usage::{
    FileTable, print_empty_line, print_file_commands, print_file_connect, print_file_header,
    print_file_named_users, print_file_users, print_path_line,
};
pub use kept::Kept;
pub use last::print_last;
pub use laws::moments_have_their_days;
pub use named_users::{print_named_user_table, print_named_users};
pub use output::{Output, OutputFault, PrintFault};
pub use path_table::{print_path_attempts, print_path_header, print_path_section};
pub use report_table::{Table, print_table};
pub use section::{Section, print_all_sections, print_section_table};
pub use sections::print_sections;
pub use tables::{a_table_reads_back, reports_read_back, seconds_read_back};
pub use usage::{print_commands, print_users};
pub use writing::Writing;
