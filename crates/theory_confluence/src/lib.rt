//! Only proofs: with Issue held back every order of moves drains, within a stated number of moves, to the same end.
#![tactic(auto)]
