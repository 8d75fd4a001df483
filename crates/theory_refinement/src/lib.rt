//! Only proofs: whatever order the moves are made in, what retires is what the sequential machine does.
#![tactic(auto)]
