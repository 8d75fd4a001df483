//! The sidings of a layout.

ghost use Rattle.std.specs.List.{list_any};
ghost use Rattle.cf_semantics.specs.state.Options.{is_some};
ghost use Rattle.std.specs.Prelude.{◌≡◌, ℕ, ◌+◌, ◌-◌, ◌<◌, IfOk, IsSome, IsTrue, None, Some, length, map, slice_get, slice_set};
ghost use Rattle.cf_semantics.specs.moves.Bars.{cell_is_taken};
ghost use Rattle.cf_semantics.specs.moves.Moves.{set_last};
ghost use Rattle.cf_sidings.specs.Sidings.{empty_sidings, cells_in, last_in, with_siding_cells, moved_on, after_access, mem_after_access, slides_on, CanAccess};
ghost use Rattle.cf_layout.specs.Words.{has_bit};

use crate::access::make;
use crate::siding::SidingCells;
use crate::words::{inner_cells, with_cell};
use cf_bind::Op;
use cf_layout::Layout;
use mem_regions::Regions;
use std::alloc::{AllocError, Global};
use std::marker::Model;

/// The sidings of a layout. Contracts see them as the lists of their cells, each from the one at which operations
/// enter. Only `new` allocates memory.
///
/// Two words have bit 8k + c for cell c of siding k. By them it is known without looking at a cell whether any operation
/// is there, and which can move on.
#[derive(Drop)]
pub struct Sidings {
    list: Vec<SidingCells>,

    /// The cells that have an operation.
    taken: u64,

    /// The cells that have a next one in their siding.
    inner: u64,
}

impl Model for Sidings {
    ghost use Rattle.std.specs.Prelude.{List, Option};
    ghost use Rattle.cf_bind.specs.declared.cell.Op.{Op};
    ghost use Rattle.cf_sidings.specs.Sidings.{HaveWords};

    ghost Value = { List (List (Option Op)) };

    ghost view = { λ s. s.list.items };

    ghost invariant = { λ s. HaveWords s.list.items s.taken s.inner };
}

impl Sidings {
    /// The empty sidings of the layout; or an error if there is no memory for them.
    #[tactic(auto, using(crate::proofs::Empty::emptying), unfolding(crate::specs::Sidings::empty_sidings))]
    pub fn new(alloc: Global, layout: &Layout) -> Result<Sidings, AllocError>
        ensures { IfOk result (λ sidings. sidings ≡ empty_sidings layout.now) }
    {
        let _stages = layout.stages();
        let mut list = Vec::new(alloc);
        for k in 0..layout.siding_count() {
            list.push(SidingCells::new(alloc, layout.cells_of(k))?)?;
        }
        Ok(Sidings {
            list,
            taken: 0,
            inner: inner_cells(layout),
        })
    }

    /// The cells of a siding, from the one at which operations enter.
    #[inline(always)]
    pub fn siding(&self, k: u32) -> &[Option<Op>]
        requires { k < length self.now }
        ensures { result.now ≡ cells_in self.now k }
    {
        self.list[k as usize].cells()
    }

    /// Whether any siding holds an operation.
    #[inline(always)]
    #[tactic(auto, using(crate::proofs::Taken::holding))]
    pub fn hold_some(&self) -> bool
        ensures { result ≡ list_any (list_any is_some) self.now }
    {
        self.taken != 0
    }

    /// The cells from which an operation can move on to the next one, which is empty: bit 8k + c for cell c of siding k.
    #[inline(always)]
    #[tactic(auto, using(crate::proofs::Moving::sliding))]
    pub fn sliding(&self) -> u64
        ensures { (j : ℕ) → has_bit result j ≡ slides_on self.now j }
    {
        self.taken & self.inner & !(self.taken >> 1)
    }

    /// The contents of a cell of a siding.
    #[inline(always)]
    pub fn cell(&self, k: u32, c: u32) -> Option<Op>
        requires siding { k < length self.now }
        requires cell { c < length (cells_in self.now k) }
        ensures { Some result ≡ slice_get (cells_in self.now k) c }
    {
        self.list[k as usize].cell(c as usize)
    }

    /// Replaces the contents of a cell of a siding.
    #[inline(always)]
    fn set(&mut self, k: u32, c: usize, op: Option<Op>)
        requires siding { k < length self.old }
        requires cell { c < length (cells_in self.old k) }
        ensures sidings { self.new ≡ with_siding_cells self.old k (slice_set (cells_in self.old k) c op) }
        ensures cells { map length self.new ≡ map length self.old }
    {
        self.taken = with_cell(self.taken, k, c, op.is_some());
        self.list[k as usize].set(c, op);
    }

    /// The operation in the last cell of a siding, which has cells.
    #[inline(always)]
    fn last(&self, k: u32) -> Option<Op>
        requires { 0 < length (cells_in self.now k) }
        ensures { result ≡ last_in self.now k }
    {
        self.list[k as usize].last()
    }

    /// The index of the last cell of a siding, which has cells.
    #[inline(always)]
    fn end(&self, k: u32) -> usize
        requires { 0 < length (cells_in self.now k) }
        ensures { result ≡ length (cells_in self.now k) - 1 }
    {
        self.siding(k).len() - 1
    }

    /// Puts an operation into the first cell of a siding, which is empty.
    #[inline(always)]
    pub fn launch(&mut self, k: u32, op: Op)
        requires { slice_get (cells_in self.old k) 0 ≡ Some None }
        ensures sidings { self.new ≡ with_siding_cells self.old k (slice_set (cells_in self.old k) 0 (Some op)) }
        ensures cells { map length self.new ≡ map length self.old }
    {
        self.set(k, 0, Some(op));
    }

    /// Moves the operation of a cell to the next one, which is empty.
    #[inline(always)]
    #[tactic(auto, unfolding(crate::specs::Sidings::moved_on))]
    pub fn slide(&mut self, k: u32, c: u32)
        requires there { IsTrue (cell_is_taken (slice_get (cells_in self.old k) c)) }
        requires room { slice_get (cells_in self.old k) (c + 1) ≡ Some None }
        ensures sidings { self.new ≡ with_siding_cells self.old k (moved_on (cells_in self.old k) c) }
        ensures cells { map length self.new ≡ map length self.old }
    {
        let op = self.cell(k, c);
        self.set(k, c as usize, None);
        self.set(k, c as usize + 1, op);
    }

    /// Carries out the load or store in the last cell of a siding, which memory permits and which has no answer yet.
    /// The answer is the value that a load writes to its register, and 0 for a store.
    #[inline(always)]
    #[tactic(auto, using(crate::proofs::Last::last_cell, crate::proofs::Last::there), unfolding(crate::specs::Sidings::after_access, crate::specs::Sidings::mem_after_access))]
    pub fn access(&mut self, k: u32, mem: &mut Regions)
        requires { CanAccess (last_in self.old k) mem.old }
        ensures sidings { self.new ≡ with_siding_cells self.old k (after_access (cells_in self.old k) mem.old) }
        ensures memory { mem.new ≡ mem_after_access (cells_in self.old k) mem.old }
        ensures cells { map length self.new ≡ map length self.old }
    {
        match self.last(k) {
            Some(mut op) => {
                op.answer = Some(make(op, mem));
                let last = self.end(k);
                self.set(k, last, Some(op));
            }
            None => unreachable!(),
        }
    }

    /// Removes the operation in the last cell of a siding.
    #[inline(always)]
    #[tactic(auto, using(crate::proofs::Last::last_cell, crate::proofs::Last::there))]
    pub fn recover(&mut self, k: u32) -> Op
        requires { IsSome (last_in self.old k) }
        ensures op { Some result ≡ last_in self.old k }
        ensures sidings { self.new ≡ with_siding_cells self.old k (set_last (cells_in self.old k) None) }
        ensures cells { map length self.new ≡ map length self.old }
    {
        match self.last(k) {
            Some(op) => {
                let last = self.end(k);
                self.set(k, last, None);
                op
            }
            None => unreachable!(),
        }
    }

    /// Puts back earlier contents of a cell of a siding.
    #[inline(always)]
    pub fn put_back(&mut self, k: u32, c: u32, op: Option<Op>)
        requires siding { k < length self.old }
        requires cell { c < length (cells_in self.old k) }
        ensures sidings { self.new ≡ with_siding_cells self.old k (slice_set (cells_in self.old k) c op) }
        ensures cells { map length self.new ≡ map length self.old }
    {
        self.set(k, c as usize, op);
    }
}
