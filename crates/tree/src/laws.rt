ghost use Rattle.tree.specs.Laws.{LayoutHolds, OneTree, ReachedOnce};

// A tree's layout holds it from the last slot.
pub fn layout_holds()
    ensures { LayoutHolds }
{}

// Slots hold at most one tree from a number.
pub fn one_tree()
    ensures { OneTree }
{}

// From the root of a layout each slot is reached once.
pub fn reached_once()
    ensures { ReachedOnce }
{}
