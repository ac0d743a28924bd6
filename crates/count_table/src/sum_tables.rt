//! Sums of a table's counts, kept in dense tables: one for a set of vertices, with a sum for each cell of the set.
mod places;
mod sum_table;
mod sum_tables;
mod summing;

pub use places::Places;
pub use sum_table::SumTable;
pub use sum_tables::SumTables;
