//! What is known of the rows of a report. The functions do nothing.
ghost use Rattle.reports.specs.FirstRows.{FirstRows};
ghost use Rattle.reports.specs.Fronts.{FrontsGrow};

/// The first rows are a first part of all rows.
pub fn first_rows_are_a_part()
    ensures { FirstRows }
{}

/// One field more of a line says its word and a space before what follows.
pub fn fronts_grow()
    ensures { FrontsGrow }
{}
