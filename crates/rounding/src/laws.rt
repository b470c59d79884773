ghost use Rattle.rounding.specs.Extremes.{ExtremesAreBounds};
ghost use Rattle.rounding.specs.SearchOrder.{SearchIsInOrder};

/// The extremes of a relation's form are the least and the greatest that it takes on the numbers between a lower and an
/// upper one for each cell.
pub fn extremes_are_bounds()
    ensures { ExtremesAreBounds }
{}

/// The search goes through exactly the lists of choices whose proper prefixes are all open, in strictly ascending
/// lexicographic order.
pub fn search_is_in_order()
    ensures { SearchIsInOrder }
{}
