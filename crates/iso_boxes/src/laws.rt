// Laws of the walk.
ghost use Rattle.iso_boxes.specs.Laws.{BoxesLie, BoxesNest, BoxesTakeBytes, WrittenBoxesAreRead};

/// Each box of a walk lies in the bytes where it says, and so does its body.
pub fn boxes_lie_where_they_say()
    ensures { BoxesLie }
{}

/// A box in a box lies in the bytes around both.
pub fn boxes_nest()
    ensures { BoxesNest }
{}

/// A walk has no more boxes than bytes.
pub fn boxes_take_bytes()
    ensures { BoxesTakeBytes }
{}

/// A box that was written is read again at its place, and the walk goes on behind it.
pub fn written_boxes_are_read()
    ensures { WrittenBoxesAreRead }
{}
