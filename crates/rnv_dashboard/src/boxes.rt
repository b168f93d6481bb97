ghost use Rattle.rnv_dashboard.specs.Boxes.{TicksItem};

/// Does nothing. Its clause is the law that whoever ticks the box of an item on a page ticks the branch
/// of that item and nothing else, where the name of the branch has no space.
pub fn boxes_tick()
    ensures item { TicksItem }
{}
