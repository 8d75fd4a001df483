//! Results fall one after another, each from the lowest stage above the one before from which a result can fall.

ghost use Rattle.std.specs.Prelude.{◌≡◌, ◌≢◌, ℕ, ◌-◌, ◌<◌, ◌≤◌, ◌&&◌, ◌||◌, IsTrue, length, nat_eq, not, true, false};
ghost use Rattle.cf_layout.specs.Words.{has_bit as is_bit_set};
ghost use Rattle.cf_stages.specs.Changes.{cells_fallen, falls};
ghost use Rattle.cf_stages.specs.Falling.{AreResting, AreSomeFalls, FallsOn};
ghost use Rattle.cf_stages.specs.Parts.{AreStages, stages_of};

use crate::stages::Stages;
use crate::words::{lowered, with_bit};
use cf_bind::{Packet, Passenger};

/// How many results fell, and from which stage the last of them did; both are 0 if none did.
#[derive(Clone, Copy)]
pub struct Fallen {
    pub count: u32,
    pub last: u32,
}

/// The words of the stages where an instruction is, where a result is, and where the two have met.
#[derive(Clone, Copy)]
pub(crate) struct StageWords {
    pub(crate) riding: u32,
    pub(crate) flying: u32,
    pub(crate) met: u32,
}

/// The result of the stage goes to the one below, which has none, where it has met nothing. The words follow.
#[inline(always)]
#[tactic(auto, using(crate::proofs::Written::dropping, crate::proofs::Entries::entries, crate::proofs::Kept::counting))]
pub(crate) fn drop_one(
    passengers: &[Passenger],
    packets: &mut [Packet],
    words: StageWords,
    i: u32,
) -> StageWords
    requires parts { AreStages passengers.now packets.old words.riding words.flying words.met }
    requires falls { IsTrue (falls (stages_of passengers.now packets.old words.riding words.flying words.met) i) }
    ensures parts { AreStages passengers.now packets.new result.riding result.flying result.met }
    ensures cells { stages_of passengers.now packets.new result.riding result.flying result.met
        ≡ cells_fallen (stages_of passengers.now packets.old words.riding words.flying words.met) i }
    ensures riding { result.riding ≡ words.riding }
{
    let _passengers = passengers;
    let flying = lowered(words.flying, i);
    let met = with_bit(words.met, i, false);
    packets[i as usize - 2] = packets[i as usize - 1];
    StageWords {
        riding: words.riding,
        flying,
        met,
    }
}

/// The lowest stage of the word.
#[inline(always)]
#[tactic(auto, using(crate::proofs::InTurn::lowest_stage))]
fn lowest_of(word: u32) -> u32
    requires { word ≢ 0 }
    ensures numbered { 0 < result }
    ensures within { result ≤ 32 }
    ensures here { is_bit_set word (result - 1) ≡ true }
    ensures first { (k : ℕ) → k < result - 1 → is_bit_set word k ≡ false }
{
    word.trailing_zeros() + 1
}

/// The word without this stage, and with the one above if the other word has it.
#[inline(always)]
fn moved_up(word: u32, other: u32, i: u32) -> u32
    requires above { 0 < i }
    requires within { i ≤ 32 }
    ensures { (k : ℕ) → is_bit_set result k ≡ ((is_bit_set word k && not (nat_eq k (i - 1))) || (nat_eq k i && is_bit_set other k)) }
{
    let bit = 1 << (i - 1);
    word & !bit | bit << 1 & other
}

/// Lets the results of these stages fall from the lowest up, and after each that of the stage above, if a result rests there.
#[inline(always)]
fn drop_in_turn(
    passengers: &[Passenger],
    packets: &mut [Packet],
    words: StageWords,
    left: u32,
    resting: u32,
) -> (StageWords, Fallen)
    requires parts { AreStages passengers.now packets.old words.riding words.flying words.met }
    requires left { AreSomeFalls (stages_of passengers.now packets.old words.riding words.flying words.met) left }
    requires resting { AreResting (stages_of passengers.now packets.old words.riding words.flying words.met) resting }
    ensures parts { AreStages passengers.now packets.new result.0.riding result.0.flying result.0.met }
    ensures falls { FallsOn (stages_of passengers.now packets.old words.riding words.flying words.met) left
        (stages_of passengers.now packets.new result.0.riding result.0.flying result.0.met) result.1.count result.1.last }
    ensures riding { result.0.riding ≡ words.riding }
{
    let mut words = words;
    let mut rest = left;
    let mut fallen = Fallen { count: 0, last: 0 };
    while rest != 0 {
        let stage = lowest_of(rest);
        words = drop_one(passengers, packets, words, stage);
        rest = moved_up(rest, resting, stage);
        fallen = Fallen {
            count: fallen.count + 1,
            last: stage,
        };
    }
    (words, fallen)
}

impl Stages {
    /// Lets the results of these stages fall from the lowest up, and after each that of the stage above, if a result rests
    /// there; answers how many fell, and from where.
    // The words are kept in registers meanwhile: written into the stages they would be read again after each entry that is written.
    #[inline(always)]
    pub fn fall_on(&mut self, left: u32, resting: u32) -> Fallen
        requires left { AreSomeFalls self.old left }
        requires resting { AreResting self.old resting }
        ensures { FallsOn self.old left self.new result.count result.last }
    {
        let words = StageWords {
            riding: self.passenger_mask,
            flying: self.packet_mask,
            met: self.met_mask,
        };
        let (words, fallen) = drop_in_turn(
            &self.passengers,
            &mut self.packets,
            words,
            left,
            resting,
        );
        self.packet_mask = words.flying;
        self.met_mask = words.met;
        fallen
    }
}
