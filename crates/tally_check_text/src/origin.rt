//! Where the records of a file come from.

/// Where the records that were checked come from.
#[derive(Clone, Copy)]
pub enum Origin<'a> {
    /// The file itself has them.
    File,
    /// They are login records that were made of the database that the file is.
    Database,
    /// The file is a database of which no login records were made, for this reason. It is printed as it is.
    Refused(&'a str),
}
