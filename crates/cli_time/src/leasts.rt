//! The minimum of some times.

ghost use Rattle.std.specs.Prelude.{◌<◌, length};
ghost use Rattle.cli_time.specs.Leasts.{IsFirstLeast};

/// The place of the first minimum of some times.
pub(crate) fn first_least(times: &[u64]) -> usize
    requires { 0 < length times.now }
    ensures { IsFirstLeast times.now result }
{
    let mut least = 0;
    for place in 1..times.len() {
        if times[place] < times[least] {
            least = place;
        }
    }
    least
}
