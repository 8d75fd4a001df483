//! Making moves in turn.

ghost use Rattle.std.specs.Prelude.{◌≡◌, ◌<◌, ◌≤◌, false, length, true};
ghost use Rattle.run_options.specs.declared.guess_rule.GuessRule.TheVariants as rules;
ghost use Rattle.cf_io.specs.Causes.{HasCause};
ghost use Rattle.cf_semantics.specs.moves.Holding.{offered};
ghost use Rattle.cf_run.specs.Reaching.{GoesOn};
ghost use Rattle.cf_run.specs.Policies.{chooser};
ghost use Rattle.cf_debug.specs.Driving.{meets_break};
ghost use Rattle.cf_debug.specs.Limits.{most_retired};
ghost use Rattle.cf_debug.specs.Making.{processor_state};
ghost use Rattle.cf_debug.specs.Outcomes.{DrivesOut, Steers, output_broken, report_broken};
ghost use Rattle.cf_debug.specs.Standing.{StandsSomewhere};

use crate::answer::Broken;
use crate::making::make;
use crate::replies::put_retirement;
use crate::ring::Ring;
use cf_bind::{Fetch, Move};
use cf_core::Core;
use cf_index::Candidates;
use cf_io::Sink;
use cf_run::known;
use cf_sched::{Pace, Policy, Round};
use run_options::GuessRule;

/// The maximum number of instructions that retire in a session.
const MOST_RETIRED: u64 = 10_000_000;

/// Whether the move issues an instruction at the break address.
fn breaks(core: &Core, stop: Option<u32>, mv: Move) -> bool
    ensures { result ≡ meets_break stop core.now.state mv }
{
    match stop {
        Some(address) => { matches!(mv, Move::Issue(_)) && core.fetch() == Fetch::Running(address) }
        None => false,
    }
}

/// Whether as many instructions have retired as the limit allows.
pub(crate) fn is_spent(core: &Core) -> bool
    ensures yes { result ≡ true → most_retired ≤ core.now.state.retired }
    ensures no { result ≡ false → core.now.state.retired < most_retired }
{
    core.retired() >= MOST_RETIRED
}

/// Whether the program has not ended, and fewer instructions have retired than the limit allows.
fn goes_on(core: &Core) -> bool
    ensures yes { result ≡ true → GoesOn most_retired core.now.state }
    ensures no { result ≡ false → GoesOn most_retired core.now.state → ⊥ }
{
    core.ending().is_none() && !is_spent(core)
}

/// Makes the move that is picked, writes the line of an instruction that retires, and returns whether an instruction at
/// the break address was issued.
fn advance<K: Sink, R: Sink>(
    core: &mut Core,
    candidates: &mut Candidates,
    ring: &mut Ring,
    round: &mut Round,
    pace: &mut Pace,
    stop: Option<u32>,
    output: &mut K,
    report: &mut R,
) -> Result<bool, Broken>
    requires goes { GoesOn most_retired core.old.state }
    requires stages { pace.old.stages ≡ core.old.plan.stages }
    requires rule { pace.old.rule ≡ rules.Any }
    requires some { 0 < length (offered core.old.plan pace.old.count core.old.state) }
    ensures steers { Steers stop (chooser rules.Any round.old pace.old.count) (chooser rules.Any round.new pace.new.count)
        (processor_state core.old ring.old (K.written output.old)) (processor_state core.new ring.new (K.written output.new))
        (R.written report.old) (R.written report.new) result }
    ensures rule { pace.new.rule ≡ pace.old.rule }
    ensures stages { pace.new.stages ≡ pace.old.stages }
    ensures output { HasCause (K.faults output.old) (K.faults output.new) (output_broken result) }
    ensures report { HasCause (R.faults report.old) (R.faults report.new) (report_broken result) }
{
    let mv = round.choose(core, candidates, pace);
    let last = breaks(core, stop, mv);
    match make(core, ring, mv, output) {
        Ok(event) => match put_retirement(core, &event, report) {
            Ok(()) => {
                pace.saw(mv, &event, core.drained());
                Ok(last)
            }
            Err(_) => Err(Broken::Report),
        },
        Err(_) => Err(Broken::Output),
    }
}

/// Makes the moves that are picked one after another, at most this many: until the run is over, or an instruction at
/// the break address is issued. Returns how many there were.
pub(crate) fn drive<K: Sink, R: Sink>(
    count: u32,
    core: &mut Core,
    candidates: &mut Candidates,
    ring: &mut Ring,
    stop: Option<u32>,
    output: &mut K,
    report: &mut R,
) -> Result<u32, Broken>
    requires stands { StandsSomewhere core.old ring.old }
    ensures drives { DrivesOut count stop
        (processor_state core.old ring.old (K.written output.old)) (processor_state core.new ring.new (K.written output.new))
        (R.written report.old) (R.written report.new) result }
    ensures output { HasCause (K.faults output.old) (K.faults output.new) (output_broken result) }
    ensures report { HasCause (R.faults report.old) (R.faults report.new) (report_broken result) }
{
    known(core);
    let mut pace = Pace::new(GuessRule::Any, core.layout().stages());
    let mut round = Round::new();
    for made in 0..count {
        if !goes_on(core) {
            return Ok(made);
        }
        match advance(
            core, candidates, ring, &mut round, &mut pace, stop, output, report,
        ) {
            Ok(true) => return Ok(made + 1),
            Ok(false) => {}
            Err(broken) => return Err(broken),
        }
    }
    Ok(count)
}
