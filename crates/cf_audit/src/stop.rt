//! Where an audit stops.

ghost use Rattle.std.specs.Prelude.{◌≡◌, ◌≤◌, count_by, length};
ghost use Rattle.rv_text.specs.Lines.{is_line_feed};
ghost use Rattle.cf_audit.specs.Limits.{most_trace};
ghost use Rattle.cf_audit.specs.Traces.{line_of_byte};
ghost use Rattle.cf_audit.specs.Turns.{outcome_of};

use crate::answer::Audit;
use run_scripts::TraceKind;

/// How an audit stops: its outcome, with an index in the trace instead of a line. The line is computed only once, when
/// the audit has stopped, since a trace may have a million moves.
#[derive(Clone, Copy)]
pub(crate) enum AuditStop {
    /// The trace is that of a run of this many moves.
    Agrees(u64),

    /// Mismatch: the index of the byte where the trace goes wrong, and the reason.
    Wrong { place: usize, kind: TraceKind },

    /// The input failed in a call of the environment.
    ReadFault,
}

/// The number of line feeds in a text.
fn count_lines(text: &[u8]) -> usize
    ensures count { result ≡ count_by is_line_feed text.now }
    ensures within { result ≤ length text.now }
{
    let mut count = 0;
    for byte in text {
        if *byte == b'\n' {
            count += 1;
        }
    }
    count
}

/// The line of the byte at an index, counted from 1.
#[tactic(auto, using(crate::proofs::Parting::fronts), unfolding(crate::specs::Traces::line_of_byte))]
fn line_of(text: &[u8], place: usize) -> u32
    requires { length text.now ≤ most_trace }
    ensures { result ≡ line_of_byte text.now place }
{
    let end = place.min(text.len());
    count_lines(&text[..end]) as u32 + 1
}

/// The outcome of an audit of the trace that stops in this way.
pub(crate) fn outcome_of(trace: &[u8], stop: AuditStop) -> Audit
    requires { length trace.now ≤ most_trace }
    ensures { result ≡ outcome_of trace.now stop }
{
    match stop {
        AuditStop::Agrees(moves) => Audit::Agrees(moves),
        AuditStop::Wrong { place, kind } => Audit::Wrong {
            line: line_of(trace, place),
            kind,
        },
        AuditStop::ReadFault => Audit::ReadFault,
    }
}
