//! The laws of the shape of a state, each the contract of a function that does nothing.

ghost use Rattle.order_shapes.specs.Shapes.{KeepsShape, RetiresEncodable};

/// Whichever rule is taken away, each state to which a list of moves leads has as many stages, sidings and cells as the
/// layout, and its instructions can be encoded.
#[tactic(auto, using(crate::proofs::KeptShapes::shapes))]
pub fn moves_keep_the_shape()
    ensures { KeepsShape }
{}

/// If a state has this shape, an instruction that retires from it can be encoded.
#[tactic(auto, using(crate::proofs::KeptShapes::shapes))]
pub fn what_retires_can_be_encoded()
    ensures { RetiresEncodable }
{}
