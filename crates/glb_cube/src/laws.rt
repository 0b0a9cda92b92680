//! The laws of the lifeline graph, as contracts of functions without bodies.
ghost use Rattle.glb_cube.specs.Lines.{Cube, IsCube};
ghost use Rattle.glb_cube.specs.GraphLaws.{GraphLaws};

/// What a scheduler over the lifeline graph rests on: the records' fields say it.
pub fn lifelines_connect_the_places()
    ensures { (c : Cube) → IsCube c → GraphLaws c }
{}
