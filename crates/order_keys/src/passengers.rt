//! Instructions on their way up, in keys.

ghost use Rattle.std.specs.Prelude.{◌≡◌, ◌++◌, IfOk};
ghost use Rattle.order_keys.specs.Passengers.{flags_of, follows as follows_at, origin_flags_of, other_guess as other_guess_of, packed_bindings, packed_next, packed_origin, packed_outcome, unpacked_next, unpacked_origin};

use crate::bindings::{has_value, pack_bound, unpack_bound};
use crate::compound::{pack_some, unpack_some};
use crate::pack::Pack;
use crate::passenger_flags::{OriginFlags, PassengerFlags};
use crate::unread::Unread;
use cf_bind::{End, Guess, Passenger};
use rv_inst::Instr;
use std::alloc::AllocError;

impl Pack for Guess {
    ghost use Rattle.order_keys.specs.Passengers.{packed_guess, unpacked_guess};

    ghost packed = { packed_guess };

    ghost unpacked = { unpacked_guess };

    #[inline(always)]
    #[tactic(auto, unfolding(crate::specs::Passengers::packed_guess))]
    fn pack(&self, key: &mut Vec<u8>) -> Result<(), AllocError> {
        match *self {
            Guess::Next => {
                key.push(0)?;
                Ok(())
            }
            Guess::Taken => {
                key.push(1)?;
                Ok(())
            }
            Guess::Wait => {
                key.push(2)?;
                Ok(())
            }
            Guess::To(target) => {
                key.push(3)?;
                target.pack(key)
            }
        }
    }

    #[inline(always)]
    #[tactic(auto, unfolding(crate::specs::Passengers::unpacked_guess))]
    fn unpack(key: &mut Unread<'_>) -> Guess {
        match key.byte() {
            0 => Guess::Next,
            1 => Guess::Taken,
            2 => Guess::Wait,
            _ => Guess::To(u32::unpack(key)),
        }
    }
}

impl Pack for End {
    ghost use Rattle.order_keys.specs.Passengers.{packed_end, unpacked_end};

    ghost packed = { packed_end };

    ghost unpacked = { unpacked_end };

    #[inline(always)]
    #[tactic(auto, unfolding(crate::specs::Passengers::packed_end))]
    fn pack(&self, key: &mut Vec<u8>) -> Result<(), AllocError> {
        match *self {
            End::Trap { cause, pc, detail } => {
                key.push(0)?;
                (cause, pc, detail).pack(key)
            }
            End::Exit(status) => {
                key.push(1)?;
                status.pack(key)
            }
        }
    }

    #[inline(always)]
    #[tactic(auto, unfolding(crate::specs::Passengers::unpacked_end))]
    fn unpack(key: &mut Unread<'_>) -> End {
        match key.byte() {
            0 => {
                let (cause, pc, detail) = <(u8, u32, u32)>::unpack(key);
                End::Trap { cause, pc, detail }
            }
            _ => End::Exit(u8::unpack(key)),
        }
    }
}

/// The guess, if it is another than that the next instruction follows.
#[inline(always)]
fn other_guess(guess: Guess) -> Option<Guess>
    ensures { result ≡ other_guess_of guess }
{
    match guess {
        Guess::Next => None,
        Guess::Taken | Guess::Wait | Guess::To(_) => Some(guess),
    }
}

/// Whether the program goes on with the instruction behind the one at this address.
#[inline(always)]
fn follows(pc: u32, next: Option<u32>) -> bool
    ensures { result ≡ follows_at pc next }
{
    match next {
        None => false,
        Some(next) => next == pc.wrapping_add(4),
    }
}

/// How far the instruction has come.
#[inline(always)]
fn flags(p: &Passenger) -> PassengerFlags
    ensures { result ≡ flags_of p.now }
{
    PassengerFlags {
        done: p.done,
        launched: p.launched,
        recovered: p.recovered,
        dead: p.dead,
        next: p.next.is_some(),
        follows: follows(p.pc, p.next),
        ending: p.ending.is_some(),
        owes: p.owes.is_some(),
    }
}

/// What the instruction came with.
#[inline(always)]
fn origin_flags(p: &Passenger) -> OriginFlags
    ensures { result ≡ origin_flags_of p.now }
{
    OriginFlags {
        what: p.what.is_some(),
        guess: other_guess(p.guess).is_some(),
        src1: p.src1.is_some(),
        src1_value: has_value(&p.src1),
        src2: p.src2.is_some(),
        src2_value: has_value(&p.src2),
        dst: p.dst.is_some(),
        dst_value: has_value(&p.dst),
    }
}

/// Appends the instruction's address, the decoded instruction and the guess.
#[inline(always)]
#[tactic(auto, unfolding(crate::specs::Passengers::packed_origin))]
fn pack_origin(p: &Passenger, key: &mut Vec<u8>) -> Result<(), AllocError>
    ensures { IfOk result (λ _. key.new.items ≡ key.old.items ++ packed_origin (p.now.pc, p.now.what, p.now.guess)) }
{
    p.pc.pack(key)?;
    pack_some(&p.what, key)?;
    pack_some(&other_guess(p.guess), key)
}

/// Takes an address, a decoded instruction and a guess.
#[inline(always)]
#[tactic(auto, unfolding(crate::specs::Passengers::unpacked_origin))]
fn unpack_origin(flags: OriginFlags, key: &mut Unread<'_>) -> (u32, Option<Instr>, Guess)
    ensures value { result ≡ (unpacked_origin flags key.old).value }
    ensures left { key.new ≡ (unpacked_origin flags key.old).left }
{
    let pc = u32::unpack(key);
    let what = unpack_some(flags.what, key);
    let guess = unpack_some(flags.guess, key);
    (pc, what, guess.unwrap_or(Guess::Next))
}

/// Appends the bindings of the instruction's sources and of its destination.
#[inline(always)]
#[tactic(auto, unfolding(crate::specs::Passengers::packed_bindings))]
fn pack_bindings(p: &Passenger, key: &mut Vec<u8>) -> Result<(), AllocError>
    ensures { IfOk result (λ _. key.new.items ≡ key.old.items ++ packed_bindings (p.now.src1, p.now.src2, p.now.dst)) }
{
    pack_bound(&p.src1, key)?;
    pack_bound(&p.src2, key)?;
    pack_bound(&p.dst, key)
}

/// Appends the address at which the program goes on after the instruction at `pc`, if the flags do not say it.
#[inline(always)]
#[tactic(auto, unfolding(crate::specs::Passengers::packed_next))]
fn pack_next(pc: u32, next: Option<u32>, key: &mut Vec<u8>) -> Result<(), AllocError>
    ensures { IfOk result (λ _. key.new.items ≡ key.old.items ++ packed_next pc next) }
{
    if follows(pc, next) {
        Ok(())
    } else {
        pack_some(&next, key)
    }
}

/// Takes the address at which the program goes on behind the instruction at `pc`, if there is one.
#[inline(always)]
#[tactic(auto, unfolding(crate::specs::Passengers::unpacked_next))]
fn unpack_next(pc: u32, flags: PassengerFlags, key: &mut Unread<'_>) -> Option<u32>
    ensures value { result ≡ (unpacked_next pc flags.follows flags.next key.old).value }
    ensures left { key.new ≡ (unpacked_next pc flags.follows flags.next key.old).left }
{
    if flags.follows {
        Some(pc.wrapping_add(4))
    } else {
        unpack_some(flags.next, key)
    }
}

/// Appends where the program goes on after the instruction, how this ends it, and what it owes.
#[inline(always)]
#[tactic(auto, unfolding(crate::specs::Passengers::packed_outcome))]
fn pack_outcome(p: &Passenger, key: &mut Vec<u8>) -> Result<(), AllocError>
    ensures { IfOk result (λ _. key.new.items ≡ key.old.items ++ packed_outcome p.now.pc (p.now.next, p.now.ending, p.now.owes)) }
{
    pack_next(p.pc, p.next, key)?;
    pack_some(&p.ending, key)?;
    pack_some(&p.owes, key)
}

impl Pack for Passenger {
    ghost use Rattle.order_keys.specs.Passengers.{packed_passenger, unpacked_passenger};

    ghost packed = { packed_passenger };

    ghost unpacked = { unpacked_passenger };

    #[inline(always)]
    #[tactic(auto, unfolding(crate::specs::Passengers::packed_passenger))]
    fn pack(&self, key: &mut Vec<u8>) -> Result<(), AllocError> {
        flags(self).pack(key)?;
        origin_flags(self).pack(key)?;
        pack_origin(self, key)?;
        pack_bindings(self, key)?;
        pack_outcome(self, key)
    }

    #[inline(always)]
    #[tactic(auto, unfolding(crate::specs::Passengers::unpacked_passenger, crate::specs::Passengers::unpacked_bindings, crate::specs::Passengers::unpacked_outcome))]
    fn unpack(key: &mut Unread<'_>) -> Passenger {
        let flags = PassengerFlags::unpack(key);
        let came = OriginFlags::unpack(key);
        let (pc, what, guess) = unpack_origin(came, key);
        let src1 = unpack_bound(came.src1, came.src1_value, key);
        let src2 = unpack_bound(came.src2, came.src2_value, key);
        let dst = unpack_bound(came.dst, came.dst_value, key);
        let next = unpack_next(pc, flags, key);
        let ending = unpack_some(flags.ending, key);
        let owes = unpack_some(flags.owes, key);
        Passenger {
            pc,
            what,
            guess,
            src1,
            src2,
            dst,
            done: flags.done,
            launched: flags.launched,
            recovered: flags.recovered,
            next,
            ending,
            owes,
            dead: flags.dead,
        }
    }
}
