// What the choosers pick, said of the listed candidates alone.
ghost use Rattle.choosers.specs.Laws.{FirstLowest, BusiestLargest};

// First picks the lowest position.
pub fn first_lowest_stands()
    ensures { FirstLowest }
{}

// Busiest picks the largest sum of the two counts, and the lowest position among equals.
pub fn busiest_largest_stands()
    ensures { BusiestLargest }
{}
