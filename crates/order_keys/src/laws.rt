//! The laws of keys, each the contract of a function that does nothing.

ghost use Rattle.order_keys.specs.Keys.{KeysAreReadBack, KeysTellApart};

/// The node of a node's key is that node.
#[tactic(auto, using(crate::proofs::KeysBack::reading))]
pub fn keys_are_read_back()
    ensures { KeysAreReadBack }
{}

/// No two nodes have the same key.
#[tactic(auto, using(crate::proofs::KeysBack::reading))]
pub fn keys_tell_nodes_apart()
    ensures { KeysTellApart }
{}
