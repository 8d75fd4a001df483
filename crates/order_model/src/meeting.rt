//! What an instruction and a result do when they meet, with or without a step taken away.
#![tactic(auto, unfolding(crate::specs::RuleMoves::meeting_without))]

ghost use Rattle.std.specs.Prelude.{◌≡◌};
ghost use Rattle.order_model.specs.RuleMoves.{garnered_without, passed_without, cancelled_without, meeting_without};

use crate::Rule;
use cf_bind::{Binding, Packet, Passenger};
use order_rules::kept;

/// What a meeting leaves: the instruction, and the result unless it was killed.
#[derive(Clone, Copy)]
pub(crate) struct MeetingLeft {
    pub(crate) passenger: Passenger,
    pub(crate) packet: Option<Packet>,
}

/// A source of this register takes the value, unless it already has one.
#[inline(always)]
fn garner(away: Option<Rule>, reg: u8, value: u32, source: Option<Binding>) -> Option<Binding>
    ensures { result ≡ garnered_without away reg value source }
{
    match source {
        Some(binding)
            if kept(away, Rule::MeetGarner) && binding.reg == reg && binding.value.is_none() => {
            Some(Binding {
                reg,
                value: Some(value),
            })
        }
        source => source,
    }
}

/// A value of this register after it has met an instruction with this destination.
#[inline(always)]
fn pass(away: Option<Rule>, reg: u8, value: u32, destination: Option<Binding>) -> Option<Packet>
    ensures { result ≡ passed_without away reg value destination }
{
    let Some(binding) = destination else {
        return Some(Packet::Value { reg, value });
    };
    if binding.reg != reg {
        return Some(Packet::Value { reg, value });
    }
    match binding.value {
        Some(written) if kept(away, Rule::MeetUpdate) => Some(Packet::Value {
            reg,
            value: written,
        }),
        Some(_) => Some(Packet::Value { reg, value }),
        None if kept(away, Rule::MeetKill) => None,
        None => Some(Packet::Value { reg, value }),
    }
}

/// A turn or a halt makes the instruction dead, and cancels what it owes.
#[inline(always)]
fn cancel(away: Option<Rule>, p: Passenger) -> Passenger
    ensures { result ≡ cancelled_without away p }
{
    if kept(away, Rule::MeetDie) {
        Passenger {
            dead: true,
            owes: None,
            ..p
        }
    } else {
        p
    }
}

/// The instruction and the result meet.
#[inline(always)]
pub(crate) fn meet(away: Option<Rule>, p: Passenger, k: Packet) -> MeetingLeft
    ensures passenger { result.passenger ≡ (meeting_without away p k).passenger }
    ensures packet { result.packet ≡ (meeting_without away p k).packet }
{
    if p.dead {
        return MeetingLeft {
            passenger: p,
            packet: Some(k),
        };
    }
    match k {
        Packet::Value { reg, value } => MeetingLeft {
            passenger: Passenger {
                src1: garner(away, reg, value, p.src1),
                src2: garner(away, reg, value, p.src2),
                ..p
            },
            packet: pass(away, reg, value, p.dst),
        },
        Packet::Turn(_) | Packet::Halt => MeetingLeft {
            passenger: cancel(away, p),
            packet: Some(k),
        },
    }
}
