//! What was decoded at each address, kept for the next issue there.

ghost use Rattle.std.specs.Prelude.{◌≡◌, ◌<◌, ℕ, List, Option, IfOk, IfSome, IsTrue, Some, length};
ghost use Rattle.std.specs.List.{All};
ghost use Rattle.mem_regions.specs.Memory.{Memory};
ghost use Rattle.rv_inst.specs.Ranges.{Fits};
ghost use Rattle.rv_inst.specs.declared.isa.Isa.{Isa as InstructionSet};
ghost use Rattle.cf_semantics.specs.moves.Instructions.{fetched as what_is_fetched};
ghost use Rattle.cf_semantics.specs.state.Options.{is_some};
ghost use Rattle.cf_semantics.specs.state.Passengers.{fresh_undone, goto as goes_to};
ghost use Rattle.cf_passengers.specs.Issuing.{meant};
ghost use Rattle.cf_passengers.specs.Templates.{AreTemplates, IsVacant, has_template, kept_for, place_at, template_of};

use crate::guessing::guessed;
use crate::issuing::{destination, fetched, source};
use cf_bind::{End, Guess, Passenger};
use cf_ends::Ends;
use mem_regions::Regions;
use rv_inst::{Class, Instr, Isa, class_of, dest, sources};
use std::alloc::{AllocError, Global};
use std::marker::Model;

/// How many places there are: enough for 16 KiB of code.
const PLACES: usize = 4096;

/// An instruction that was decoded at an address, with its class and the registers of its sources and of its
/// destination, 0 if it has none.
#[derive(Clone, Copy)]
pub struct Template {
    // The address of an empty place is beyond all others.
    pub(crate) address: u64,
    pub(crate) instr: Instr,
    pub(crate) class: Class,
    pub(crate) first: u8,
    pub(crate) second: u8,
    pub(crate) destination: u8,
}

/// An empty place.
const EMPTY: Template = Template {
    address: u64::MAX,
    instr: Instr::Ebreak,
    class: Class::Free,
    first: 0,
    second: 0,
    destination: 0,
};

/// The template of the instruction at the address.
fn template_at(pc: u32, i: Instr) -> Template
    ensures { result ≡ template_of pc i }
{
    let (first, second) = sources(i);
    Template {
        address: u64::from(pc),
        instr: i,
        class: class_of(i),
        first,
        second,
        destination: dest(i),
    }
}

/// The template of what was fetched at the address. There is none of a trap, and none of FENCE and EBREAK, which are done
/// as soon as they are issued.
fn kept(pc: u32, fetched: Result<Instr, End>) -> Option<Template>
    ensures { result ≡ kept_for pc (meant fetched) }
{
    match fetched {
        Ok(i) => match class_of(i) {
            Class::Free => None,
            _ => Some(template_at(pc, i)),
        },
        Err(_) => None,
    }
}

impl Template {
    /// The instruction as it is issued at the address with the guess: its sources have the cached values of their
    /// registers.
    #[inline(always)]
    #[tactic(auto, unfolding(cf_semantics::specs::moves::Instructions::src1_of, cf_semantics::specs::moves::Instructions::src2_of, cf_semantics::specs::moves::Instructions::dst_of))]
    pub fn passenger(self, ends: &Ends, pc: u32, guess: Guess) -> Passenger
        requires template { self ≡ template_of self.address self.instr }
        requires fits { Fits self.instr }
        ensures { result ≡ fresh_undone ends.now.cache self.instr pc guess }
    {
        Passenger {
            pc,
            what: Some(self.instr),
            guess,
            src1: source(ends, self.first),
            src2: source(ends, self.second),
            dst: destination(self.destination),
            done: false,
            launched: false,
            recovered: false,
            next: None,
            ending: None,
            owes: None,
            dead: false,
        }
    }

    /// The address at which fetch goes on after the instruction was issued at `pc` with the guess; `None` if it waits.
    #[inline(always)]
    #[tactic(auto, unfolding(cf_semantics::specs::moves::Instructions::kind_of))]
    pub fn goto(self, pc: u32, guess: Guess) -> Option<u32>
        requires { self ≡ template_of self.address self.instr }
        ensures { (cache : List (Option ℕ)) → result ≡ goes_to (fresh_undone cache self.instr pc guess) }
    {
        match self.class {
            Class::Serial => None,
            _ => guessed(guess, self.instr, pc),
        }
    }
}

/// The templates of the addresses at which instructions were issued last. They are right as long as the code is the
/// same, which only FENCE.I changes.
#[derive(Drop)]
pub struct Templates {
    places: Vec<Template>,
}

impl Model for Templates {
    ghost use Rattle.std.specs.Prelude.{◌≡◌, List, length};
    ghost use Rattle.cf_passengers.specs.declared.templates.Template.{Template};

    ghost Value = { List Template };

    ghost view = { λ t. t.places.items };

    ghost invariant = { λ t. length t.places.items ≡ 4096 };
}

/// The place of an address.
#[inline(always)]
fn place_of(pc: u32) -> usize
    ensures place { result ≡ place_at pc }
    ensures below { result < 4096 }
{
    (pc / 4) as usize % PLACES
}

/// What is at the address, by a call.
#[inline(never)]
fn fetched_anew(isa: Isa, mem: &Regions, pc: u32) -> Result<Instr, End>
    ensures { meant result ≡ what_is_fetched isa mem.now pc }
{
    fetched(isa, mem, pc)
}

impl Templates {
    /// No template; or an error if there is no memory for the places.
    pub fn new(alloc: Global) -> Result<Templates, AllocError>
        ensures { IfOk result (λ templates. All IsVacant templates) }
    {
        let mut places = Vec::new(alloc);
        places.resize(PLACES, EMPTY)?;
        Ok(Templates { places })
    }

    /// Forgets all templates.
    pub fn clear(&mut self)
        ensures { All IsVacant self.new }
    {
        self.places.fill(EMPTY);
    }

    /// Whether there is a template of the address.
    #[inline(always)]
    #[tactic(auto, unfolding(crate::specs::Templates::has_template))]
    fn has(&self, pc: u32) -> bool
        ensures has { result ≡ has_template self.now pc }
        ensures places { length self.now ≡ 4096 }
    {
        self.places[place_of(pc)].address == u64::from(pc)
    }

    /// The template of the address, if there is one.
    #[inline(always)]
    pub fn get(&self, pc: u32) -> Option<Template>
        ensures some { is_some result ≡ has_template self.now pc }
        ensures found { (isa : InstructionSet) (mem : Memory) → AreTemplates isa mem self.now →
            IfSome result (λ t. Some t ≡ kept_for pc (what_is_fetched isa mem pc)) }
    {
        if self.has(pc) {
            Some(self.places[place_of(pc)])
        } else {
            None
        }
    }

    /// The instruction of the set at the address, or its trap, as `fetched` answers it. Nothing is decoded if there is a
    /// template of the address.
    #[inline(always)]
    pub fn fetched(&self, isa: Isa, mem: &Regions, pc: u32) -> Result<Instr, End>
        requires { AreTemplates isa mem.now self.now }
        ensures { meant result ≡ what_is_fetched isa mem.now pc }
    {
        match self.get(pc) {
            Some(template) => Ok(template.instr),
            None => fetched_anew(isa, mem, pc),
        }
    }

    /// Decodes what is at the address and keeps its template, if it has one.
    #[inline(never)]
    fn keep(&mut self, isa: Isa, mem: &Regions, pc: u32) -> bool
        requires { AreTemplates isa mem.now self.old }
        ensures found { result ≡ is_some (kept_for pc (what_is_fetched isa mem.now pc)) }
        ensures has { IsTrue result → IsTrue (has_template self.new pc) }
        ensures kept { AreTemplates isa mem.now self.new }
    {
        match kept(pc, fetched(isa, mem, pc)) {
            Some(template) => {
                self.places[place_of(pc)] = template;
                true
            }
            None => false,
        }
    }

    /// Whether what is at the address has a template; if so, it is kept afterwards.
    #[inline(always)]
    #[tactic(auto, using(crate::proofs::FromTemplates::having))]
    fn comes_to_have(&mut self, isa: Isa, mem: &Regions, pc: u32) -> bool
        requires { AreTemplates isa mem.now self.old }
        ensures found { result ≡ is_some (kept_for pc (what_is_fetched isa mem.now pc)) }
        ensures has { IsTrue result → IsTrue (has_template self.new pc) }
        ensures kept { AreTemplates isa mem.now self.new }
    {
        self.has(pc) || self.keep(isa, mem, pc)
    }

    /// The template of what is at the address, if it has one. It is read from its place even if it has only now been
    /// decoded, so that decoding is a call outside the hot path.
    #[inline(always)]
    pub fn find(&mut self, isa: Isa, mem: &Regions, pc: u32) -> Option<Template>
        requires { AreTemplates isa mem.now self.old }
        ensures found { result ≡ kept_for pc (what_is_fetched isa mem.now pc) }
        ensures kept { AreTemplates isa mem.now self.new }
    {
        if self.comes_to_have(isa, mem, pc) {
            Some(self.places[place_of(pc)])
        } else {
            None
        }
    }
}
