//! A run in rounds.
#![tactic(auto, unfolding(crate::specs::Turns::RoundTurns, crate::specs::Firing::Fires))]

ghost use Rattle.std.specs.Prelude.{◌≡◌, ℕ, ◌<◌, ◌≤◌, ◌^◌, MatchOption, None, Some, length};
ghost use Rattle.run_options.specs.declared.guess_rule.GuessRule.{GuessRule as Rule};
ghost use Rattle.run_options.specs.Limits.{most_limit};
ghost use Rattle.cf_io.specs.Causes.{HasCause};
ghost use Rattle.rv_machine.specs.Streams.{streams_of};
ghost use Rattle.cf_sched.specs.Paces.{HasCounted, offered_by};
ghost use Rattle.run_finishes.specs.declared.finish.Scripted.TheVariants as scripted;
ghost use Rattle.cf_run.specs.Ending.{EndsSequentially};
ghost use Rattle.cf_run.specs.Moving.{run_place_of};
ghost use Rattle.cf_core.specs.Processors.{IsOpened};
ghost use Rattle.cf_run.specs.Policies.{most_moves};
ghost use Rattle.cf_run.specs.Reaching.{GoesOn, IsOver, no_tally};
ghost use Rattle.cf_report.specs.Putting.{PutsText};
ghost use Rattle.cf_rounds.specs.Running.{ran_of};
ghost use Rattle.cf_rounds.specs.RunsRight.{RoundsRunRight};
ghost use Rattle.cf_rounds.specs.Saying.{round_text};
ghost use Rattle.cf_rounds.specs.Turns.{RoundTurns, finish_with, input_turned, output_turned, report_turned};

use crate::answer::{Clocked, Fired};
use crate::choosing::choose;
use crate::firing::fire;
use crate::options::RoundsOptions;
use crate::round_set::RoundSet;
use cf_core::Core;
use cf_index::Candidates;
use cf_io::{Failed, Sink, Source};
use cf_report::{Tally, is_step, put_rounds_progress};
use cf_run::{Ran, known, over};
use cf_sched::Pace;

/// How the run finishes before a further round, if it does.
fn finish_before(core: &Core, limit: u64) -> Option<Clocked>
    requires { core.now.state.retired ≤ limit }
    ensures { MatchOption result (GoesOn limit core.now.state)
        (λ clocked. IsOver limit core.now.state (ran_of clocked)) }
{
    match over(core, limit) {
        Some(Ran::Exit(status)) => Some(Clocked::Exit(status)),
        Some(Ran::Trap { cause, pc, detail }) => Some(Clocked::Trap { cause, pc, detail }),
        Some(Ran::Limit) => Some(Clocked::Limit),
        Some(Ran::ReadFault) => unreachable!(),
        Some(Ran::WriteFault) => unreachable!(),
        Some(Ran::ReportFault) => unreachable!(),
        None => None,
    }
}

/// How the run finishes after a round that shows this, if it does.
fn finish_with(fired: Fired) -> Option<Clocked>
    ensures { result ≡ finish_with fired }
{
    match fired {
        Fired::ReadFault => Some(Clocked::ReadFault),
        Fired::WriteFault => Some(Clocked::WriteFault),
        Fired::Plain | Fired::Retired(_) | Fired::Ended(_) => None,
    }
}

/// Makes the round of what the pace offers, or returns why the run stops.
fn advance<S: Source, K: Sink>(
    core: &mut Core,
    candidates: &mut Candidates,
    set: &mut RoundSet,
    pace: &mut Pace,
    limit: u64,
    input: &mut S,
    output: &mut K,
    tally: &mut Tally,
) -> Option<Clocked>
    requires retired { core.old.state.retired ≤ limit }
    requires counted { (rule : Rule) × (count : ℕ) × HasCounted rule core.old.plan.stages count pace.old }
    requires some { core.old.state.ending ≡ None →
        (rule : Rule) (count : ℕ) → 0 < length (offered_by rule core.old.plan count core.old.state) }
    requires moves { tally.old.moves < 2 ^ 63 }
    requires meets { tally.old.meets < 2 ^ 63 }
    requires kills { tally.old.kills < 2 ^ 63 }
    requires dead { tally.old.dead < 2 ^ 63 }
    ensures turns { RoundTurns limit
        (run_place_of core.old (streams_of (S.left input.old) (K.written output.old)) None tally.old)
        (run_place_of core.new (streams_of (S.left input.new) (K.written output.new)) None tally.new)
        pace.old pace.new result }
    ensures input { HasCause (S.faults input.old) (S.faults input.new) (input_turned result) }
    ensures output { HasCause (K.faults output.old) (K.faults output.new) (output_turned result) }
{
    let _ = core.layout();
    if let Some(clocked) = finish_before(core, limit) {
        return Some(clocked);
    }
    pace.offer(core, candidates);
    choose(core, candidates, set);
    finish_with(fire(core, set, pace, input, output, tally))
}

/// Writes how far the run has come, after a round in which an instruction retired, if the count of retired instructions
/// is then a multiple of the step.
fn put_progress<R: Sink>(
    core: &Core,
    every: Option<u64>,
    before: u64,
    rounds: u64,
    moves: u64,
    report: &mut R,
) -> Result<(), Failed>
    ensures { PutsText (R.written report.old) (R.written report.new) (R.faults report.old) (R.faults report.new)
        (round_text every rounds moves before core.now.state.retired) result }
{
    let retired = core.retired();
    if retired != before && is_step(every, retired) {
        put_rounds_progress(retired, rounds, moves, report)
    } else {
        Ok(())
    }
}

/// Runs an opened processor in rounds, each the round of the candidates that the guess rule keeps, one after the other,
/// until the program ends or as many instructions have retired as the limit allows, which is tested before each round.
/// The candidates are held back as under a policy. After each round in which an instruction retires, if the count is
/// then a multiple of `every`, the report says how far the run has come.
///
/// `ReadFault` and `WriteFault` come only if the input or the output failed a call of the environment; that round is
/// not counted, nor its move. `ReportFault` comes only if the report failed after a round, which is counted. In each
/// case that object's count of faults rose.
///
/// If the processor was opened on a machine, the run is a run of that machine, whether or not the input's remaining
/// bytes are known, and ends as that machine does under the same limit. It has at most 4 N K (limit + 1) moves.
pub fn run_rounds<S: Source, K: Sink, R: Sink>(
    core: &mut Core,
    candidates: &mut Candidates,
    options: RoundsOptions,
    input: &mut S,
    output: &mut K,
    report: &mut R,
    tally: &mut Tally,
    rounds: &mut u64,
) -> Clocked
    requires limit { options.limit ≤ most_limit }
    requires retired { core.old.state.retired ≤ options.limit }
    requires opened { IsOpened core.old }
    requires tally { tally.old ≡ no_tally }
    requires rounds { rounds.old ≡ 0 }
    ensures run { RoundsRunRight options.rule options.limit options.every
        (run_place_of core.old (streams_of (S.left input.old) (K.written output.old)) None tally.old)
        (run_place_of core.new (streams_of (S.left input.new) (K.written output.new)) None tally.new)
        (R.written report.old) (R.written report.new) rounds.new result }
    ensures ends { EndsSequentially options.limit
        (run_place_of core.old (streams_of (S.left input.old) (K.written output.old)) None tally.old)
        (run_place_of core.new (streams_of (S.left input.new) (K.written output.new)) None tally.new)
        (scripted.Ran (ran_of result)) }
    ensures bounded { tally.new.moves ≤ most_moves core.old.plan options.limit }
    ensures input { HasCause (S.faults input.old) (S.faults input.new) (input_turned (Some result)) }
    ensures output { HasCause (K.faults output.old) (K.faults output.new) (output_turned (Some result)) }
    ensures report { HasCause (R.faults report.old) (R.faults report.new) (report_turned (Some result)) }
{
    known(core);
    let mut pace = Pace::new(options.rule, core.layout().stages());
    let mut set = RoundSet::new();
    loop {
        let before = core.retired();
        let end = advance(
            core,
            candidates,
            &mut set,
            &mut pace,
            options.limit,
            input,
            output,
            tally,
        );
        if let Some(clocked) = end {
            return clocked;
        }
        *rounds += 1;
        match put_progress(core, options.every, before, *rounds, tally.moves, report) {
            Ok(()) => {}
            Err(_) => return Clocked::ReportFault,
        }
    }
}
