//! What bars each move, with a rule taken away.

ghost use Rattle.std.specs.Option.{option_copied};
ghost use Rattle.std.specs.Prelude.{◌≡◌, find, None};
ghost use Rattle.cf_bind.specs.declared.moves.Move.TheVariants as mv;
ghost use Rattle.cf_semantics.specs.moves.Bars.{first_bar_of as first_bar_of, entry_bar as bar_of_entry, is_full as is_full_cell, row_bar};
ghost use Rattle.cf_semantics.specs.moves.Instructions.{is_memory as loads_or_stores, is_serial as needs_machine};
ghost use Rattle.cf_semantics.specs.state.Layouts.{port as port_of};
ghost use Rattle.order_model.specs.RuleBars.{row_bar_without, bar_without, lane_room as room_of, exit_op_bar_without, source_bar_under};
ghost use Rattle.order_model.specs.Situations.{in_memory};

use crate::Rule;
use crate::siding_ops::last_op;
use crate::situation::Situation;
use cf_bind::{Bar, Cell, Fetch, Guess, Move, Passenger};
use cf_layout::LooseLayout;
use cf_passengers::loose::{launches, recovers, stops_at};
use cf_passengers::{first_missing, kind, may_guess, requests};
use mem_regions::Regions;
use order_rules::kept;
use rv_inst::Class;

/// The first test that holds, with its bar.
#[inline(always)]
fn first_row(rows: &[(bool, Bar)]) -> Option<&(bool, Bar)>
    ensures { option_copied result ≡ find (λ row. row.0) rows.now }
{
    rows.iter().find(|row| row.0)
}

/// The bar of the first test that holds.
#[inline(always)]
#[tactic(auto, using(crate::proofs::FirstTest::finding))]
fn first_of(rows: &[(bool, Bar)]) -> Option<Bar>
    ensures { result ≡ first_bar_of rows.now None }
{
    match first_row(rows) {
        Some(row) => Some(row.1),
        None => None,
    }
}

/// Whether both are there, and have not met.
#[inline(always)]
fn is_full(cell: &Cell) -> bool
    ensures { result ≡ is_full_cell cell.now }
{
    cell.passenger.is_some() && cell.packet.is_some() && !cell.met
}

#[inline(always)]
pub(crate) fn is_memory(class: Class) -> bool
    ensures { result ≡ loads_or_stores class }
{
    matches!(class, Class::Memory)
}

#[inline(always)]
fn is_serial(class: Class) -> bool
    ensures { result ≡ needs_machine class }
{
    matches!(class, Class::Serial)
}

/// The number of the siding for loads and stores.
#[inline(always)]
#[tactic(auto, unfolding(cf_semantics::specs::state::Layouts::port))]
pub(crate) fn port(layout: &LooseLayout) -> usize
    ensures { result ≡ port_of layout.now }
{
    match layout.siding_of(Class::Memory) {
        Some(k) => k as usize,
        None => 0,
    }
}

/// How many requests the lane can hold; without its rule at least two for each stage.
#[inline(always)]
fn lane_room(away: Option<Rule>, layout: &LooseLayout) -> u32
    ensures { result ≡ room_of away layout.now }
{
    if kept(away, Rule::IssueLaneFull) {
        layout.lane()
    } else {
        layout.lane().max(2 * layout.stages())
    }
}

/// The bar of the first source without a value, if the rule is kept.
#[inline(always)]
fn source_bar(keeps: bool, passenger: &Passenger) -> Option<Bar>
    ensures { result ≡ source_bar_under keeps passenger.now None }
{
    if keeps {
        first_missing(passenger).map(Bar::SourceMissing)
    } else {
        None
    }
}

impl Situation {
    #[inline(always)]
    fn issue_bar(
        &self,
        away: Option<Rule>,
        layout: &LooseLayout,
        mem: &Regions,
        guess: Guess,
    ) -> Option<Bar>
        ensures { result ≡ row_bar_without away layout.now (in_memory self.now mem.now) (mv.Issue guess) }
    {
        let Some(cell) = self.cell(1) else {
            return Some(Bar::NoSuchSite);
        };
        let Fetch::Running(pc) = self.fetch else {
            return Some(Bar::FetchWaiting);
        };
        let passenger = self.issued(layout, mem, pc, guess);
        let asked = self.lane.len() as u32 + requests(&passenger).count();
        first_of(&[
            (cell.passenger.is_some(), Bar::Occupied),
            (!may_guess(guess, &passenger), Bar::BadGuess),
            (lane_room(away, layout) < asked, Bar::LaneFull),
        ])
    }

    #[inline(always)]
    fn emit_bar(&self, layout: &LooseLayout, mem: &Regions) -> Option<Bar>
        ensures { result ≡ row_bar layout.now (in_memory self.now mem.now) mv.Emit }
    {
        let Some(cell) = self.cell(layout.stages() as usize) else {
            return Some(Bar::NoSuchSite);
        };
        if self.lane.is_empty() {
            return Some(Bar::LaneEmpty);
        }
        first_of(&[(cell.packet.is_some(), Bar::Occupied)])
    }

    #[inline(always)]
    fn climb_bar(
        &self,
        away: Option<Rule>,
        layout: &LooseLayout,
        mem: &Regions,
        i: u32,
    ) -> Option<Bar>
        ensures { result ≡ row_bar_without away layout.now (in_memory self.now mem.now) (mv.Climb i) }
    {
        let Some(cell) = self.cell(i as usize) else {
            return Some(Bar::NoSuchSite);
        };
        let Some(above) = self.cell(i as usize + 1) else {
            return Some(Bar::NoSuchSite);
        };
        let Some(passenger) = cell.passenger else {
            return Some(Bar::NoPassenger);
        };
        first_of(&[
            (kept(away, Rule::ClimbNotMet) && is_full(&cell), Bar::NotMet),
            (
                kept(away, Rule::ClimbOwes) && passenger.owes.is_some(),
                Bar::Owes,
            ),
            (
                kept(away, Rule::ClimbNotDone) && stops_at(layout, &passenger, i),
                Bar::NotDone,
            ),
            (above.passenger.is_some(), Bar::Occupied),
        ])
    }

    #[inline(always)]
    fn fall_bar(
        &self,
        away: Option<Rule>,
        layout: &LooseLayout,
        mem: &Regions,
        i: u32,
    ) -> Option<Bar>
        ensures { result ≡ row_bar_without away layout.now (in_memory self.now mem.now) (mv.Fall i) }
    {
        let Some(cell) = self.cell(i as usize) else {
            return Some(Bar::NoSuchSite);
        };
        let Some(below) = self.cell((i as usize).saturating_sub(1)) else {
            return Some(Bar::NoSuchSite);
        };
        first_of(&[
            (cell.packet.is_none(), Bar::NoPacket),
            (kept(away, Rule::FallNotMet) && is_full(&cell), Bar::NotMet),
            (below.packet.is_some(), Bar::Occupied),
        ])
    }

    #[inline(always)]
    fn meet_bar(&self, layout: &LooseLayout, mem: &Regions, i: u32) -> Option<Bar>
        ensures { result ≡ row_bar layout.now (in_memory self.now mem.now) (mv.Meet i) }
    {
        let Some(cell) = self.cell(i as usize) else {
            return Some(Bar::NoSuchSite);
        };
        if cell.passenger.is_none() {
            return Some(Bar::NoPassenger);
        }
        first_of(&[
            (cell.packet.is_none(), Bar::NoPacket),
            (cell.met, Bar::AlreadyMet),
        ])
    }

    #[inline(always)]
    fn execute_bar(
        &self,
        away: Option<Rule>,
        layout: &LooseLayout,
        mem: &Regions,
        i: u32,
    ) -> Option<Bar>
        ensures { result ≡ row_bar_without away layout.now (in_memory self.now mem.now) (mv.Execute i) }
    {
        let Some(cell) = self.cell(i as usize) else {
            return Some(Bar::NoSuchSite);
        };
        let Some(passenger) = cell.passenger else {
            return Some(Bar::NoPassenger);
        };
        let bar = first_of(&[
            (kept(away, Rule::ExecuteDead) && passenger.dead, Bar::Dead),
            (passenger.done, Bar::AlreadyDone),
            (!layout.unit_at(kind(&passenger), i), Bar::NoUnit),
        ]);
        if bar.is_some() {
            return bar;
        }
        source_bar(kept(away, Rule::ExecuteSourceMissing), &passenger)
    }

    #[inline(always)]
    fn send_bar(&self, layout: &LooseLayout, mem: &Regions, i: u32) -> Option<Bar>
        ensures { result ≡ row_bar layout.now (in_memory self.now mem.now) (mv.Send i) }
    {
        let Some(cell) = self.cell(i as usize) else {
            return Some(Bar::NoSuchSite);
        };
        let Some(passenger) = cell.passenger else {
            return Some(Bar::NoPassenger);
        };
        first_of(&[
            (passenger.owes.is_none(), Bar::OwesNothing),
            (cell.packet.is_some(), Bar::Occupied),
        ])
    }

    /// The last test in the row of Launch: whether the first cell of the siding is free.
    #[inline(always)]
    fn entry_bar(&self, layout: &LooseLayout, mem: &Regions, passenger: &Passenger) -> Option<Bar>
        ensures { result ≡ bar_of_entry layout.now (in_memory self.now mem.now) passenger.now }
    {
        let Some(k) = layout.siding_of(kind(passenger)) else {
            return None;
        };
        match self.siding(k as usize).first() {
            Some(Some(_)) => Some(Bar::Occupied),
            Some(None) => None,
            None => None,
        }
    }

    /// The last two tests in the row of Launch: the sources, if the rule is kept, and the siding.
    #[inline(always)]
    fn ready_bar(
        &self,
        keeps: bool,
        layout: &LooseLayout,
        mem: &Regions,
        passenger: &Passenger,
    ) -> Option<Bar>
        ensures { result ≡ source_bar_under keeps passenger.now (bar_of_entry layout.now (in_memory self.now mem.now) passenger.now) }
    {
        match first_missing(passenger) {
            Some(register) if keeps => Some(Bar::SourceMissing(register)),
            _ => self.entry_bar(layout, mem, passenger),
        }
    }

    #[inline(always)]
    fn launch_bar(
        &self,
        away: Option<Rule>,
        layout: &LooseLayout,
        mem: &Regions,
        i: u32,
    ) -> Option<Bar>
        ensures { result ≡ row_bar_without away layout.now (in_memory self.now mem.now) (mv.Launch i) }
    {
        let Some(cell) = self.cell(i as usize) else {
            return Some(Bar::NoSuchSite);
        };
        let Some(passenger) = cell.passenger else {
            return Some(Bar::NoPassenger);
        };
        let class = kind(&passenger);
        let early = is_memory(class) && is_full(&cell);
        let bar = first_of(&[
            (kept(away, Rule::LaunchDead) && passenger.dead, Bar::Dead),
            (passenger.done || passenger.launched, Bar::AlreadyDone),
            (!launches(layout, class, i), Bar::NoUnit),
            (kept(away, Rule::LaunchNotMet) && early, Bar::NotMet),
        ]);
        if bar.is_some() {
            return bar;
        }
        let keeps = kept(away, Rule::LaunchSourceMissing);
        self.ready_bar(keeps, layout, mem, &passenger)
    }

    #[inline(always)]
    #[tactic(auto, using(crate::proofs::Beyond::sliding))]
    fn slide_bar(&self, layout: &LooseLayout, mem: &Regions, k: u32, c: u32) -> Option<Bar>
        ensures { result ≡ row_bar layout.now (in_memory self.now mem.now) (mv.Slide k c) }
    {
        let cells = self.siding(k as usize);
        let Some(next) = cells.get(c as usize + 1).copied() else {
            return Some(Bar::NoSuchSite);
        };
        if cells[c as usize].is_none() {
            return Some(Bar::OpNotThere);
        }
        match next {
            Some(_) => Some(Bar::Occupied),
            None => None,
        }
    }

    #[inline(always)]
    fn access_bar(&self, layout: &LooseLayout, mem: &Regions) -> Option<Bar>
        ensures { result ≡ row_bar layout.now (in_memory self.now mem.now) mv.Access }
    {
        let Some(op) = last_op(self.siding(port(layout))) else {
            return Some(Bar::OpNotThere);
        };
        first_of(&[(op.answer.is_some(), Bar::AlreadyDone)])
    }

    /// The last tests in the row of Recover: whether the operation is at the end of its siding, and answered.
    #[inline(always)]
    fn exit_op_bar(
        &self,
        away: Option<Rule>,
        layout: &LooseLayout,
        mem: &Regions,
        passenger: &Passenger,
    ) -> Option<Bar>
        ensures { result ≡ exit_op_bar_without away layout.now (in_memory self.now mem.now) passenger.now }
    {
        let class = kind(passenger);
        let Some(k) = layout.siding_of(class) else {
            return Some(Bar::NoUnit);
        };
        let Some(op) = last_op(self.siding(k as usize)) else {
            return Some(Bar::OpNotThere);
        };
        let waits = is_memory(class) && op.answer.is_none();
        first_of(&[(kept(away, Rule::RecoverNotDone) && waits, Bar::NotDone)])
    }

    #[inline(always)]
    fn recover_bar(
        &self,
        away: Option<Rule>,
        layout: &LooseLayout,
        mem: &Regions,
        i: u32,
    ) -> Option<Bar>
        ensures { result ≡ row_bar_without away layout.now (in_memory self.now mem.now) (mv.Recover i) }
    {
        let Some(cell) = self.cell(i as usize) else {
            return Some(Bar::NoSuchSite);
        };
        let Some(passenger) = cell.passenger else {
            return Some(Bar::NoPassenger);
        };
        let bar = first_of(&[
            (!recovers(layout, kind(&passenger), i), Bar::NoUnit),
            (!passenger.launched || passenger.recovered, Bar::AlreadyDone),
        ]);
        if bar.is_some() {
            return bar;
        }
        self.exit_op_bar(away, layout, mem, &passenger)
    }

    #[inline(always)]
    fn leave_bar(&self, away: Option<Rule>, layout: &LooseLayout, mem: &Regions) -> Option<Bar>
        ensures { result ≡ row_bar_without away layout.now (in_memory self.now mem.now) mv.Leave }
    {
        let Some(cell) = self.cell(layout.stages() as usize) else {
            return Some(Bar::NoSuchSite);
        };
        let Some(passenger) = cell.passenger else {
            return Some(Bar::NoPassenger);
        };
        let undone = (!passenger.dead && !passenger.done)
            || (passenger.launched && !passenger.recovered);
        first_of(&[
            (kept(away, Rule::LeaveNotMet) && is_full(&cell), Bar::NotMet),
            (
                kept(away, Rule::LeaveOwes) && passenger.owes.is_some(),
                Bar::Owes,
            ),
            (kept(away, Rule::LeaveNotDone) && undone, Bar::NotDone),
        ])
    }

    #[inline(always)]
    fn exit_bar(&self, away: Option<Rule>, layout: &LooseLayout, mem: &Regions) -> Option<Bar>
        ensures { result ≡ row_bar_without away layout.now (in_memory self.now mem.now) mv.Exit }
    {
        let Some(cell) = self.cell(1) else {
            return Some(Bar::NoSuchSite);
        };
        first_of(&[
            (cell.packet.is_none(), Bar::NoPacket),
            (kept(away, Rule::ExitNotMet) && is_full(&cell), Bar::NotMet),
        ])
    }

    #[inline(always)]
    fn serve_bar(&self, away: Option<Rule>, layout: &LooseLayout, mem: &Regions) -> Option<Bar>
        ensures { result ≡ row_bar_without away layout.now (in_memory self.now mem.now) mv.Serve }
    {
        let Some(cell) = self.cell(layout.stages() as usize) else {
            return Some(Bar::NoSuchSite);
        };
        let Some(passenger) = cell.passenger else {
            return Some(Bar::NoPassenger);
        };
        first_of(&[
            (passenger.dead, Bar::Dead),
            (passenger.done, Bar::AlreadyDone),
            (!is_serial(kind(&passenger)), Bar::NoUnit),
            (kept(away, Rule::ServeNotMet) && is_full(&cell), Bar::NotMet),
        ])
    }

    /// The bar of the move, by its row.
    #[inline(always)]
    fn row_bar(
        &self,
        away: Option<Rule>,
        layout: &LooseLayout,
        mem: &Regions,
        m: Move,
    ) -> Option<Bar>
        ensures { result ≡ row_bar_without away layout.now (in_memory self.now mem.now) m }
    {
        match m {
            Move::Issue(guess) => self.issue_bar(away, layout, mem, guess),
            Move::Emit => self.emit_bar(layout, mem),
            Move::Climb(i) => self.climb_bar(away, layout, mem, i),
            Move::Fall(i) => self.fall_bar(away, layout, mem, i),
            Move::Meet(i) => self.meet_bar(layout, mem, i),
            Move::Execute(i) => self.execute_bar(away, layout, mem, i),
            Move::Send(i) => self.send_bar(layout, mem, i),
            Move::Launch(i) => self.launch_bar(away, layout, mem, i),
            Move::Slide(k, c) => self.slide_bar(layout, mem, k, c),
            Move::Access => self.access_bar(layout, mem),
            Move::Recover(i) => self.recover_bar(away, layout, mem, i),
            Move::Leave => self.leave_bar(away, layout, mem),
            Move::Exit => self.exit_bar(away, layout, mem),
            Move::Serve => self.serve_bar(away, layout, mem),
        }
    }

    /// The bar of the move in this state with this memory, where a rule may be taken away. Nothing is allowed after the
    /// program has ended.
    #[tactic(auto, unfolding(crate::specs::RuleBars::bar_without))]
    pub fn bar(
        &self,
        away: Option<Rule>,
        layout: &LooseLayout,
        mem: &Regions,
        m: Move,
    ) -> Option<Bar>
        ensures { result ≡ bar_without away layout.now (in_memory self.now mem.now) m }
    {
        if self.ending.is_some() {
            Some(Bar::Halted)
        } else {
            self.row_bar(away, layout, mem, m)
        }
    }
}
