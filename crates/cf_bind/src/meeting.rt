//! What an instruction and a result do when they meet in a stage.
#![tactic(auto, unfolding(crate::specs::Meeting::meeting))]

ghost use Rattle.std.specs.Prelude.{◌≡◌};
ghost use Rattle.cf_bind.specs.Meeting.{garnered, passed, meeting as meeting_of};

use crate::binding::Binding;
use crate::packet::Packet;
use crate::passenger::Passenger;

/// A source of this register takes the value, unless it already has one.
#[inline(always)]
fn garner(source: &mut Option<Binding>, reg: u8, value: u32)
    ensures { source.new ≡ garnered reg value source.old }
{
    if let Some(binding) = source {
        if binding.reg == reg && binding.value.is_none() {
            binding.value = Some(value);
        }
    }
}

/// A value of this register after it has met an instruction with this destination. If the instruction writes this
/// register, nothing is left while the new value is unknown, and the new value once it is known.
#[inline(always)]
fn pass(destination: Option<Binding>, reg: u8, value: u32) -> Option<Packet>
    ensures { result ≡ passed reg value destination }
{
    match destination {
        Some(binding) if binding.reg == reg => {
            binding.value.map(|value| Packet::Value { reg, value })
        }
        _ => Some(Packet::Value { reg, value }),
    }
}

/// The instruction and the result meet. A value goes to the sources that wait for it. Then, if the instruction writes
/// the value's register, the value is killed while the new one is unknown, and updated to it once it is known. A turn
/// or a halt makes the instruction dead and cancels what it owes. A dead instruction changes nothing and is not
/// changed. What is left of the result is returned.
#[inline(always)]
pub fn meet(p: &mut Passenger, k: Packet) -> Option<Packet>
    ensures passenger { p.new ≡ (meeting_of p.old k).passenger }
    ensures packet { result ≡ (meeting_of p.old k).packet }
{
    if p.dead {
        return Some(k);
    }
    match k {
        Packet::Value { reg, value } => {
            garner(&mut p.src1, reg, value);
            garner(&mut p.src2, reg, value);
            pass(p.dst, reg, value)
        }
        Packet::Turn(_) | Packet::Halt => {
            p.dead = true;
            p.owes = None;
            Some(k)
        }
    }
}
