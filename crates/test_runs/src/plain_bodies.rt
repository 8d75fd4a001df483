//! Runs of which no move is shown make moves in sweeps, or draw them from packed words. They are compared with runs that fill in
//! all candidates before each move, and pick from them.

ghost use Rattle.std.specs.Prelude.{◌≡◌, ◌≤◌};
ghost use Rattle.cf_core.specs.Processors.{IsOpened};
ghost use Rattle.cf_run.specs.Reaching.{no_tally};
ghost use Rattle.cf_sched.specs.Policies.{drawn_on, drawn_pick, round_on, round_pick};

use crate::processors::core_of;
use cf_core::Core;
use cf_index::Candidates;
use cf_io::{Empty, Nowhere};
use cf_layout::plain;
use cf_report::Tally;
use cf_run::{PolicyOptions, Ran, Reporting, Show, run_drawn, run_policy, run_rule};
use cf_sched::{Drawn, Policy, Round};
use run_options::GuessRule;
use std::process::Abort;

/// It counts in x1, stores the count in the last word, loads it from there and shifts it, and starts over.
const COUNTS: &[u32] = &[
    0x0000_0297, // auipc x5, 0
    0x0010_8093, // addi x1, x1, 1
    0x0012_ae23, // sw x1, 28(x5)
    0x01c2_a103, // lw x2, 28(x5)
    0x0011_1193, // slli x3, x2, 1
    0xfe01_98e3, // bne x3, x0, -16
    0x0000_006f, // jal x0, 0
    0x0000_0000,
];

/// The rule, which picks from all candidates.
#[derive(Drop)]
struct RuleOfAll {
    rule: Round,
}

impl Policy for RuleOfAll {
    ghost picked = { λ p moves. round_pick p.rule moves };

    ghost onward = { λ p moves. record { rule = round_on p.rule moves } };

    fn pick(&mut self, candidates: &Candidates) -> usize {
        self.rule.pick(candidates)
    }
}

/// A generator, which draws from all candidates.
#[derive(Drop)]
struct DrawnOfAll {
    drawn: Drawn,
}

impl Policy for DrawnOfAll {
    ghost picked = { λ p moves. drawn_pick p.drawn moves };

    ghost onward = { λ p moves. record { drawn = drawn_on p.drawn } };

    fn pick(&mut self, candidates: &Candidates) -> usize {
        self.drawn.pick(candidates)
    }
}

/// A run that shows nothing, up to this many instructions.
fn options() -> PolicyOptions
    ensures { result.limit ≡ 200 }
{
    PolicyOptions {
        rule: GuessRule::Any,
        limit: 200,
        reporting: Reporting {
            show: Show::Report,
            every: None,
        },
    }
}

/// Nothing was counted.
fn uncounted() -> Tally
    ensures { result ≡ no_tally }
{
    Tally {
        moves: 0,
        meets: 0,
        kills: 0,
        dead: 0,
    }
}

/// A processor of eight stages that is about to run the program.
fn opened(rt: &(impl Abort + AllocGlobal)) -> Core
    ensures opened { IsOpened result }
    ensures within { result.state.retired ≤ 200 }
{
    let core = core_of(rt, plain(), COUNTS);
    assert!(rt; core.retired() <= 200, "too many retired");
    core
}

/// What a run by a policy counts, and the registers that it leaves.
fn by_policy<P: Policy>(rt: &(impl Abort + AllocGlobal), policy: &mut P) -> (Tally, [u32; 32]) {
    let mut core = opened(rt);
    let mut candidates = Candidates::new(rt.alloc()).expect(rt, "memory");
    let mut tally = uncounted();
    let ran = run_policy(
        &mut core,
        &mut candidates,
        policy,
        options(),
        &mut Empty,
        &mut Nowhere,
        &mut Nowhere,
        &mut tally,
    );
    assert!(rt; matches!(ran, Ran::Limit), "another end");
    (tally, *core.regs())
}

#[test]
fn sweeps_make_what_the_rule_picks(rt: HostRuntime) {
    let mut core = opened(&rt);
    let mut candidates = Candidates::new(rt.alloc()).expect(&rt, "memory");
    let mut tally = uncounted();
    let ran = run_rule(
        &mut core,
        &mut candidates,
        &mut Round::new(),
        options(),
        &mut Empty,
        &mut Nowhere,
        &mut Nowhere,
        &mut tally,
    );
    let of_all = by_policy(&rt, &mut RuleOfAll { rule: Round::new() });
    assert!(rt; matches!(ran, Ran::Limit), "another end");
    assert!(rt; (tally, *core.regs()) == of_all, "other moves");
}

#[test]
fn moves_are_drawn_from_all_candidates(rt: HostRuntime) {
    for seed in 0..20 {
        let mut core = opened(&rt);
        let mut candidates = Candidates::new(rt.alloc()).expect(&rt, "memory");
        let mut tally = uncounted();
        let ran = run_drawn(
            &mut core,
            &mut candidates,
            &mut Drawn::new(seed),
            options(),
            &mut Empty,
            &mut Nowhere,
            &mut Nowhere,
            &mut tally,
        );
        let of_all = by_policy(
            &rt,
            &mut DrawnOfAll {
                drawn: Drawn::new(seed),
            },
        );
        assert!(rt; matches!(ran, Ran::Limit), "another end");
        assert!(rt; (tally, *core.regs()) == of_all, "other moves");
    }
}
