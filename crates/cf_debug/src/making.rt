//! A move of the debugger.
#![tactic(auto, unfolding(crate::specs::Making::MakesKeptOrFails))]

ghost use Rattle.std.specs.Prelude.{◌≡◌, ◌≢◌, ◌+◌, ◌<◌, ◌^◌, None};
ghost use Rattle.cf_io.specs.Causes.{HasCause};
ghost use Rattle.cf_bind.specs.declared.moves.Move.TheVariants as moves;
ghost use Rattle.cf_semantics.specs.moves.Bars.{bar};
ghost use Rattle.cf_debug.specs.Making.{processor_state, MakesAndKeeps, MakesKeptOrFails};

use crate::ring::Ring;
use cf_bind::Move;
use cf_core::{Core, Event, Fault};
use cf_io::{Empty, Failed, Sink};

/// Makes Serve. It cannot be taken back, so it empties the ring.
fn serve<K: Sink>(core: &mut Core, ring: &mut Ring, output: &mut K) -> Result<Event, Failed>
    requires allowed { bar core.old.plan core.old.state moves.Serve ≡ None }
    requires retired { core.old.state.retired + 1 < 2 ^ 64 }
    ensures makes { MakesKeptOrFails moves.Serve
        (processor_state core.old ring.old (K.written output.old))
        (processor_state core.new ring.new (K.written output.new)) result }
    ensures output { HasCause (K.faults output.old) (K.faults output.new) result }
{
    match core.make(Move::Serve, &mut Empty, output) {
        Ok(event) => {
            ring.clear();
            Ok(event)
        }
        Err(Fault::Write) => Err(Failed),
        Err(Fault::Read) => unreachable!(),
    }
}

/// Makes another move and keeps it.
fn make_other<K: Sink>(core: &mut Core, ring: &mut Ring, mv: Move, output: &mut K) -> Event
    requires allowed { bar core.old.plan core.old.state mv ≡ None }
    requires other { mv ≢ moves.Serve }
    requires retired { core.old.state.retired + 1 < 2 ^ 64 }
    ensures makes { MakesAndKeeps mv result
        (processor_state core.old ring.old (K.written output.old))
        (processor_state core.new ring.new (K.written output.new)) }
    ensures output { K.faults output.new ≡ K.faults output.old }
{
    let undo = core.before(mv);
    match core.make(mv, &mut Empty, output) {
        Ok(event) => {
            ring.push(undo);
            event
        }
        Err(Fault::Write) => unreachable!(),
        Err(Fault::Read) => unreachable!(),
    }
}

/// Makes an allowed move, keeps it and returns its event; or the output failed its call.
pub(crate) fn make<K: Sink>(
    core: &mut Core,
    ring: &mut Ring,
    mv: Move,
    output: &mut K,
) -> Result<Event, Failed>
    requires allowed { bar core.old.plan core.old.state mv ≡ None }
    requires retired { core.old.state.retired + 1 < 2 ^ 64 }
    ensures makes { MakesKeptOrFails mv
        (processor_state core.old ring.old (K.written output.old))
        (processor_state core.new ring.new (K.written output.new)) result }
    ensures output { HasCause (K.faults output.old) (K.faults output.new) result }
{
    if mv == Move::Serve {
        serve(core, ring, output)
    } else {
        Ok(make_other(core, ring, mv, output))
    }
}
