//! The kinds of moves that a round looks for apart: Slide, of which it makes at most one, Leave and Exit, and Serve, of which it
//! makes none.

ghost use Rattle.std.specs.Prelude.{◌≡◌, Bool, IfSome, None, Some, false, slice_get, true};
ghost use Rattle.run_options.specs.declared.guess_rule.GuessRule.{GuessRule};
ghost use Rattle.cf_bind.specs.declared.moves.Move.TheVariants as mv;
ghost use Rattle.cf_index.specs.Order.{kind_place, slide_place};
ghost use Rattle.cf_index.specs.PickedFrom.{IsPickedFrom, at_top, from_access, from_exit, from_serve, outward_on};
ghost use Rattle.cf_index.specs.Words.{goes_on};

use crate::after::passed_slides;
use crate::bits::count;
use crate::candidates::Candidates;
use crate::fill::slides;
use crate::outward::first_slide;
use crate::pipe_ends::{AtTop, exits, top};
use cf_bind::Move;
use cf_core::Core;

impl Candidates {
    /// The first allowed Slide.
    #[inline(always)]
    #[tactic(auto, using(crate::proofs::PickedFrom::slide_here, crate::proofs::PickedFrom::slide_gone))]
    pub fn first_slide(core: &Core) -> Option<Move>
        ensures slide { IfSome result (λ next. kind_place next ≡ slide_place) }
        ensures here { IfSome result (λ next. slice_get (outward_on core.now.plan core.now.state) 0 ≡ Some next) }
        ensures gone { result ≡ None → from_access core.now.plan core.now.state ≡ outward_on core.now.plan core.now.state }
    {
        first_slide(slides(core))
    }

    /// Whether another allowed Slide comes after this one. If none does, and this one was the last pick, the next pick
    /// is searched for among the moves by which something leaves.
    #[inline(always)]
    pub fn slides_after(core: &Core, mv: Move) -> bool
        ensures { (rule : GuessRule) (held : Bool) → result ≡ false → IsPickedFrom rule held core.now.plan core.now.state (Some mv) (from_access core.now.plan core.now.state) }
    {
        match mv {
            Move::Slide(k, c) => {
                let word = slides(core);
                passed_slides(word, k, c) < count(word)
            }
            _ => true,
        }
    }

    /// What the instruction of the highest stage can do.
    #[inline(always)]
    pub fn at_top(core: &Core) -> AtTop
        requires { goes_on core.now.state ≡ true }
        ensures { result ≡ at_top core.now.plan core.now.state }
    {
        let masks = core.open_masks();
        top(core, &masks)
    }

    /// Whether Exit is allowed.
    #[inline(always)]
    #[tactic(auto, using(crate::proofs::PickedFrom::exiting))]
    pub fn may_exit(core: &Core) -> bool
        requires { goes_on core.now.state ≡ true }
        ensures here { result ≡ true → slice_get (from_exit core.now.plan core.now.state) 0 ≡ Some mv.Exit }
        ensures gone { result ≡ false → from_serve core.now.plan core.now.state ≡ from_exit core.now.plan core.now.state }
    {
        let masks = core.open_masks();
        exits(core, &masks)
    }
}
