//! A timed run with a ledger.

ghost use Rattle.std.specs.Prelude.{◌≡◌, ◌-◌, ◌≤◌, Some};
ghost use Rattle.rv_machine.specs.Streams.{streams_of};
ghost use Rattle.cf_run.specs.Policies.{most_moves};
ghost use Rattle.cf_timed.specs.Clocks.{rule_of_clock};
ghost use Rattle.cf_timed.specs.TimedRuns.{CanBegin, HasCauses, answer_of_timed, begins};
ghost use Rattle.run_ledger.specs.NotedRuns.{RunsNoted};
ghost use Rattle.run_ledger.specs.RunLedgers.{begun};

use crate::run_ledger::RunLedger;
use cf_core::Core;
use cf_index::Candidates;
use cf_io::{Failed, Nowhere, Sink, Source};
use cf_run::known;
use cf_timed::{Clock, TimedOptions, TimedRun, run_watched};

/// Runs an opened processor in the same way as `run_timed` of cf_timed, with a clock and a ledger that have recorded no
/// move. The ledger records the same moves as the clock. It allocates no memory and always terminates.
pub fn run_noted<S: Source, K: Sink>(
    core: &mut Core,
    candidates: &mut Candidates,
    clock: &mut Clock,
    ledger: &mut RunLedger,
    options: TimedOptions,
    input: &mut S,
    output: &mut K,
) -> TimedRun
    requires ledger { ledger.old ≡ begun core.old.plan }
    requires begins { CanBegin options.limit core.old clock.old }
    ensures run { RunsNoted options.rule (rule_of_clock clock.old) options.limit
        (begins core.old (streams_of (S.left input.old) (K.written output.old)))
        core.new (streams_of (S.left input.new) (K.written output.new)) clock.new ledger.new result.moves result.answer }
    ensures bounded { result.moves ≤ most_moves core.old.plan (core.new.state.retired - core.old.state.retired) }
    ensures causes { HasCauses (S.faults input.old) (S.faults input.new) (K.faults output.old) (K.faults output.new) (Some (answer_of_timed result.answer)) }
{
    known(core);
    clock.known();
    let ran = run_watched(
        core,
        candidates,
        clock,
        ledger,
        options,
        input,
        output,
        &mut Nowhere,
    );
    match ran {
        Ok(run) => run,
        // A sink that keeps nothing never fails.
        Err(Failed) => unreachable!(),
    }
}
