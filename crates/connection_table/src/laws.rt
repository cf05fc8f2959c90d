//! What every table is.
ghost use Rattle.connection_table.specs.Tables.{EmptyIsTable, StoringKeepsTables, TouchingKeepsTables};

/// From an empty table on, whatever is touched or stored, each flow is in it once. It has no more entries than it may keep.
/// The clauses are the law; the body does nothing.
pub fn tables_stay_tables()
    ensures empty { EmptyIsTable }
    ensures touch { TouchingKeepsTables }
    ensures store { StoringKeepsTables }
{}
