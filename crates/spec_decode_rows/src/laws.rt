//! Laws of decode rows, stated in specs/Laws.antt. Nothing runs.

ghost use Rattle.spec_decode_rows.specs.Laws.{DecodedRowsAreApart, RowsAreApart};

/// Where no row is wrong no word agrees with two rows on the bits that they fix.
pub fn rows_are_apart()
    ensures { RowsAreApart }
{}

/// The same of the rows that are then answered, part by part.
pub fn decoded_rows_are_apart()
    ensures { DecodedRowsAreApart }
{}
