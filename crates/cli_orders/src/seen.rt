//! The instruction that retires with the last move of a list.

ghost use Rattle.std.specs.Prelude.{IfSome};
ghost use Rattle.order_shapes.specs.Shapes.{IsEncodable};
ghost use Rattle.cli_orders.specs.OrderTexts.{IsLeavingLine};

use cf_bind::Passenger;
use cf_passengers::retirement;
use rv_machine::Retired;

/// The line of that instruction, if there is one.
pub(crate) fn seen_line(seen: &Option<Passenger>) -> Option<Retired>
    requires { IfSome seen.now IsEncodable }
    ensures { IsLeavingLine seen.now result }
{
    match seen {
        Some(p) => Some(retirement(p)),
        None => None,
    }
}
