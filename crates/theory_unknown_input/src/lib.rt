//! Only proofs: even over an input whose remaining bytes are unknown, every order of moves does what the sequential
//! machine does, each of whose calls finds what that input gave.
#![tactic(auto)]
