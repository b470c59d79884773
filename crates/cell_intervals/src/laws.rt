ghost use Rattle.cell_intervals.specs.Laws.{FileIsOne, SizeIsLarge};

/// The intervals of a hidden set have one file.
pub fn file_is_one()
    ensures { FileIsOne }
{}

/// A component is too large, among the faults, exactly where it has more than 4,000 hidden cells.
pub fn size_is_large()
    ensures { SizeIsLarge }
{}
