//! Making a round.
#![tactic(auto, unfolding(crate::specs::Firing::Fires))]

ghost use Rattle.std.specs.Prelude.{◌≡◌, ◌+◌, ◌<◌, ◌^◌, None};
ghost use Rattle.cf_io.specs.Causes.{HasCause};
ghost use Rattle.rv_machine.specs.Streams.{streams_of};
ghost use Rattle.cf_run.specs.Moving.{run_place_of};
ghost use Rattle.cf_rounds.specs.Firing.{Fires, input_fired, output_fired, seen};
ghost use Rattle.cf_rounds.specs.Rounds.{IsRound};

use crate::answer::Fired;
use crate::round_set::RoundSet;
use cf_core::{Core, Event};
use cf_io::{Nowhere, Sink, Source};
use cf_report::Tally;
use cf_run::{Ran, Reporting, Show, make_and_show};
use cf_sched::Pace;

/// What a round shows, with one more event.
fn with_event(fired: Fired, event: &Event) -> Fired
    ensures { result ≡ seen fired event.now }
{
    match event {
        Event::Retired(line) => Fired::Retired(*line),
        Event::Ended(end) => Fired::Ended(*end),
        Event::Plain | Event::Killed | Event::Died => fired,
    }
}

/// Makes the moves of a round of the processor, in the order in which they were taken, counts them and shows them to
/// the pace. Nothing bars any of them when its turn comes, and they could be made in any order.
///
/// `Retired` and `Ended` come exactly if a move of the round has that event. `ReadFault` and `WriteFault` come only
/// from Serve, which is a round of its own, and only if the input or the output failed its call; the move is not
/// counted then. In each case that stream's count of faults rose.
pub fn fire<S: Source, K: Sink>(
    core: &mut Core,
    set: &RoundSet,
    pace: &mut Pace,
    input: &mut S,
    output: &mut K,
    tally: &mut Tally,
) -> Fired
    requires round { IsRound core.old.plan core.old.state set.now }
    requires retired { core.old.state.retired + 1 < 2 ^ 64 }
    requires moves { tally.old.moves < 2 ^ 63 }
    requires meets { tally.old.meets < 2 ^ 63 }
    requires kills { tally.old.kills < 2 ^ 63 }
    requires dead { tally.old.dead < 2 ^ 63 }
    ensures fires { Fires set.now
        (run_place_of core.old (streams_of (S.left input.old) (K.written output.old)) None tally.old)
        (run_place_of core.new (streams_of (S.left input.new) (K.written output.new)) None tally.new)
        pace.old pace.new result }
    ensures input { HasCause (S.faults input.old) (S.faults input.new) (input_fired result) }
    ensures output { HasCause (K.faults output.old) (K.faults output.new) (output_fired result) }
{
    let _ = core.layout();
    let mut fired = Fired::Plain;
    for place in 0..set.len() {
        let mv = set.get(place);
        match make_and_show(
            core,
            mv,
            Reporting {
                show: Show::Report,
                every: None,
            },
            input,
            output,
            &mut Nowhere,
            tally,
        ) {
            Ok(event) => {
                pace.saw(mv, &event, core.drained());
                fired = with_event(fired, &event);
            }
            Err(Ran::ReadFault) => return Fired::ReadFault,
            Err(Ran::WriteFault) => return Fired::WriteFault,
            Err(Ran::ReportFault) => unreachable!(),
            Err(Ran::Exit(_)) => unreachable!(),
            Err(Ran::Trap { .. }) => unreachable!(),
            Err(Ran::Limit) => unreachable!(),
        }
    }
    fired
}
