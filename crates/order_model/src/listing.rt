//! The moves that exist under a layout, and those that lead on from a state.

ghost use Rattle.std.specs.Prelude.{◌≡◌, ◌++◌, IfOk, map};
ghost use Rattle.cf_bind.specs.declared.moves.Move.TheVariants as mv;
ghost use Rattle.cf_semantics.specs.claims.Weight.{is_issue as issues};
ghost use Rattle.cf_semantics.specs.moves.Candidates.{all_moves as all_moves_of, at_stages, counted_from, slides_from};
ghost use Rattle.theory_orders.specs.Wrong.{leading};
ghost use Rattle.order_model.specs.StageKinds.{kind_at};
ghost use Rattle.order_model.specs.RuleBars.{bar_without};
ghost use Rattle.order_model.specs.Situations.{in_memory};

use crate::Rule;
use crate::situation::Situation;
use cf_bind::{Guess, Move};
use cf_layout::LooseLayout;
use mem_regions::Regions;
use std::alloc::{AllocError, Global};

/// The kinds of moves that each stage has.
#[derive(Clone, Copy)]
pub(crate) enum StagedKind {
    Climb,
    Fall,
    Meet,
    Execute,
    Send,
    Launch,
    Recover,
}

impl StagedKind {
    /// The move of this kind at a stage.
    fn at(self, i: u32) -> Move
        ensures { result ≡ kind_at self i }
    {
        match self {
            StagedKind::Climb => Move::Climb(i),
            StagedKind::Fall => Move::Fall(i),
            StagedKind::Meet => Move::Meet(i),
            StagedKind::Execute => Move::Execute(i),
            StagedKind::Send => Move::Send(i),
            StagedKind::Launch => Move::Launch(i),
            StagedKind::Recover => Move::Recover(i),
        }
    }
}

/// Adds the moves of a kind at each stage, ascending.
fn push_stages(
    moves: &mut Vec<Move>,
    layout: &LooseLayout,
    kind: StagedKind,
) -> Result<(), AllocError>
    ensures { IfOk result (λ done. moves.new.items ≡ moves.old.items ++ at_stages layout.now (kind_at kind)) }
{
    for below in 0..layout.stages() {
        moves.push(kind.at(below + 1))?;
    }
    Ok(())
}

/// Adds the moves from each cell of a siding to the next, ascending.
fn push_cells(moves: &mut Vec<Move>, siding: u32, cells: u32) -> Result<(), AllocError>
    ensures { IfOk result (λ done. moves.new.items ≡ moves.old.items ++ map (mv.Slide siding) (counted_from 0 cells)) }
{
    for cell in 0..cells {
        moves.push(Move::Slide(siding, cell))?;
    }
    Ok(())
}

/// Adds the moves within the sidings, ascending.
fn push_slides(moves: &mut Vec<Move>, layout: &LooseLayout) -> Result<(), AllocError>
    ensures { IfOk result (λ done. moves.new.items ≡ moves.old.items ++ slides_from 0 layout.now.sidings) }
{
    for siding in 0..layout.siding_count() {
        push_cells(moves, siding, layout.cells_of(siding).saturating_sub(1))?;
    }
    Ok(())
}

/// Adds the moves of the kinds listed before those of the sidings, at each stage.
fn push_lower(moves: &mut Vec<Move>, layout: &LooseLayout) -> Result<(), AllocError>
    ensures { IfOk result (λ done. moves.new.items ≡ (((((moves.old.items ++ at_stages layout.now mv.Climb) ++ at_stages layout.now mv.Fall)
        ++ at_stages layout.now mv.Meet) ++ at_stages layout.now mv.Execute) ++ at_stages layout.now mv.Send) ++ at_stages layout.now mv.Launch) }
{
    push_stages(moves, layout, StagedKind::Climb)?;
    push_stages(moves, layout, StagedKind::Fall)?;
    push_stages(moves, layout, StagedKind::Meet)?;
    push_stages(moves, layout, StagedKind::Execute)?;
    push_stages(moves, layout, StagedKind::Send)?;
    push_stages(moves, layout, StagedKind::Launch)
}

/// All moves in their order, except an Issue whose guess is an address.
#[tactic(auto, using(crate::proofs::Listed::listing))]
pub fn all_moves(alloc: Global, layout: &LooseLayout) -> Result<Vec<Move>, AllocError>
    ensures { IfOk result (λ moves. moves.items ≡ all_moves_of layout.now) }
{
    let mut moves = Vec::new(alloc);
    moves.extend_from_slice(&[
        Move::Issue(Guess::Next),
        Move::Issue(Guess::Taken),
        Move::Issue(Guess::Wait),
        Move::Emit,
    ])?;
    push_lower(&mut moves, layout)?;
    push_slides(&mut moves, layout)?;
    moves.push(Move::Access)?;
    push_stages(&mut moves, layout, StagedKind::Recover)?;
    moves.extend_from_slice(&[Move::Leave, Move::Exit, Move::Serve])?;
    Ok(moves)
}

/// Whether the move is Issue.
fn is_issue(m: Move) -> bool
    ensures { result ≡ issues m }
{
    matches!(m, Move::Issue(_))
}

impl Situation {
    /// Those of the moves, in their order, that lead on from the state in this memory: those that are allowed, without
    /// Issue if it may not be made.
    #[tactic(auto, unfolding(theory_orders::specs::Wrong::leading))]
    pub fn candidates(
        &self,
        alloc: Global,
        away: Option<Rule>,
        layout: &LooseLayout,
        mem: &Regions,
        moves: &[Move],
        may_issue: bool,
    ) -> Result<Vec<Move>, AllocError>
        ensures { IfOk result (λ found. found.items ≡ leading (bar_without away layout.now (in_memory self.now mem.now)) may_issue moves.now) }
    {
        let mut found = Vec::new(alloc);
        for m in moves {
            if self.bar(away, layout, mem, *m).is_none() && (may_issue || !is_issue(*m)) {
                found.push(*m)?;
            }
        }
        Ok(found)
    }
}
