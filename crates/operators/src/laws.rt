ghost use Rattle.operators.specs.Claims.{AlwaysOneGrouping, OneByTable, FromTheLeft, Climbing, Joining, Parentheses};
ghost use Rattle.operators.specs.Shapes.{Examples};

// Whatever the levels, every operator list has one grouping that keeps the precedence rule.
pub fn one_grouping<T, O>()
    ensures { AlwaysOneGrouping T O }
{}

// By YARA's levels, every list of its operators has one grouping that keeps the precedence rule.
pub fn one_grouping_by_table<T>()
    ensures { OneByTable T }
{}

// Operators of one level group from the left.
pub fn equals_group_from_the_left<T, O>()
    ensures { FromTheLeft T O }
{}

// Read from the left, an operator is the top of what was read before it and of the stronger operators behind it.
pub fn reading_climbs<T, O>()
    ensures { Climbing T O }
{}

// The tree of a list comes from the trees of the two sides of its top.
pub fn trees_join<T, O>()
    ensures { Joining T O }
{}

// Parentheses around a side of a top change nothing in the tree.
pub fn parentheses_do_not_matter<T, O>()
    ensures { Parentheses T O }
{}

// Subtractions with and without parentheses, and other small lists, with their trees.
pub fn worked_examples()
    ensures { Examples }
{}
