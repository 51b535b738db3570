//! Laws of the definitions.
ghost use Rattle.ba_wire.specs.Printed.{RowsAreTold};

/// Rows that are printed alike are the same rows, column by column: NULL, whole numbers and texts
/// are told apart.
pub fn printed_rows_are_told()
    ensures { RowsAreTold }
{}
