//! The moves that are allowed: how many there are, and picking one by its index.
#![tactic(auto)]

mod after;
mod ahead;
mod bits;
mod candidates;
mod ending;
mod entering;
mod fill;
mod guiding;
mod idle;
mod in_turn;
mod known;
mod leaving;
mod once_kinds;
mod outward;
mod packed;
mod packing;
mod passing;
mod pipe_ends;
mod plainly;
mod rank;
mod sharing;
mod soon;
mod stage_kinds;
mod stages;
mod starting;
mod visiting;
mod words;

pub use bits::lowest_stage;
pub use candidates::Candidates;
pub use in_turn::{falls_bar_no_launch, results_at_rest};
pub use known::is_known_allowed;
pub use once_kinds::{AccessKind, EmitKind, OnceKind};
pub use packed::PackedCandidates;
pub use pipe_ends::AtTop;
pub use rank::Rank;
pub use sharing::shares;
pub use stage_kinds::{
    ExecuteKind, FallKind, LaunchKind, MeetKind, RecoverKind, SendKind, StageKind, all_climbs,
    climbs_left,
};
pub use visiting::Visitor;
