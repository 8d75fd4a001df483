//! Worked runs: what the definitions of the moves give for small programs, as theorems by computation.
#![tactic(auto)]
