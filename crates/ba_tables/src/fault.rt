//! Why a table's file could not be read.

/// The first fault of a table's file. Data rows are numbered from 1, columns from 0.
#[derive(Clone, Copy, Debug, PartialEq, Eq)]
pub enum TableFault {
    /// The first record isn't exactly the column names in the schema's order, or there is none.
    BadHeader,
    /// The row has more or fewer fields than the table has columns.
    BadWidth(u64),
    /// A field of the row is not UTF-8.
    BadUtf8(u64),
    /// The field of this row and column is no number of 64 bits.
    BadNumber(u64, u32),
    /// There are more rows than this limit, and none of them is bad.
    TooMany(u64),
}
