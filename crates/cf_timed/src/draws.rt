//! The words from which the delays of a run are drawn.

ghost use Rattle.std.specs.Prelude.{◌≡◌, ◌<◌};
ghost use Rattle.cf_timed.specs.Drawing.{after_word, drawn_from, generator_at, next_draw_state, next_word, started_from, stream_of};

use cf_bind::Move;
use rand_core::utils::NextWord;
use rand_pcg::Lcg64Xsh32;

/// For each stream of a seed, the state of its PCG generator. Without a seed no word is drawn.
#[derive(Clone, Copy)]
pub struct DelayDraws {
    pub(crate) seed: Option<u64>,
    pub(crate) states: [u64; 960],
}

/// The stream from which the move draws: its kind, in the order of `Move` from 1, times 64, plus its stage, or plus 8
/// times its siding and its cell.
#[inline(always)]
#[tactic(auto, unfolding(crate::specs::Drawing::stream_of))]
pub(crate) fn stream_of(mv: Move) -> usize
    ensures { result ≡ stream_of mv }
{
    match mv {
        Move::Issue(_) => 64,
        Move::Emit => 128,
        Move::Climb(i) => 192 + i as usize,
        Move::Fall(i) => 256 + i as usize,
        Move::Meet(i) => 320 + i as usize,
        Move::Execute(i) => 384 + i as usize,
        Move::Send(i) => 448 + i as usize,
        Move::Launch(i) => 512 + i as usize,
        Move::Slide(k, c) => 576 + 8 * k as usize + c as usize,
        Move::Access => 640,
        Move::Recover(i) => 704 + i as usize,
        Move::Leave => 768,
        Move::Exit => 832,
        Move::Serve => 896,
    }
}

/// The first state of each stream of the seed.
#[tactic(auto, unfolding(crate::specs::Drawing::started_from))]
fn first_states(seed: u64) -> [u64; 960]
    ensures { result ≡ started_from seed }
{
    let mut states = [0; 960];
    for stream in 0..960 {
        states[stream] = Lcg64Xsh32::new(seed, stream as u64).state();
    }
    states
}

impl DelayDraws {
    /// The draws of a run that has made no move.
    #[tactic(auto, unfolding(crate::specs::Drawing::drawn_from))]
    pub(crate) fn new(seed: Option<u64>) -> DelayDraws
        ensures { result ≡ drawn_from seed }
    {
        let states = match seed {
            Some(seed) => first_states(seed),
            None => [0; 960],
        };
        DelayDraws { seed, states }
    }

    /// The generator of a stream.
    #[inline(always)]
    fn generator(&self, stream: usize) -> Lcg64Xsh32
        ensures { result ≡ generator_at self.now stream }
    {
        let state = self.states.get(stream).copied().unwrap_or(0);
        Lcg64Xsh32::from_state(state, stream as u64)
    }

    /// The next word of the move's stream, if one is drawn.
    #[inline(always)]
    #[tactic(auto, unfolding(crate::specs::Drawing::next_word))]
    pub(crate) fn next_word(&self, mv: Move) -> Option<u32>
        ensures { result ≡ next_word self.now (stream_of mv) }
    {
        match self.seed {
            Some(_) => Some(self.generator(stream_of(mv)).next_word()),
            None => None,
        }
    }

    /// The state of the stream once its next word was taken.
    #[inline(always)]
    fn next_state(&self, stream: usize) -> u64
        ensures { result ≡ next_draw_state self.now stream }
    {
        let mut generator = self.generator(stream);
        let _word = generator.next_word();
        generator.state()
    }

    /// Takes the next word of the stream.
    #[inline(always)]
    #[tactic(auto, unfolding(crate::specs::Drawing::after_word))]
    fn take_from(&mut self, stream: usize)
        ensures { self.new ≡ after_word self.old stream }
    {
        if self.seed.is_some() && stream < 960 {
            self.states[stream] = self.next_state(stream);
        }
    }

    /// Takes the next word of the move's stream, if one is drawn.
    #[inline(always)]
    #[tactic(auto, unfolding(crate::specs::Drawing::after_word))]
    pub(crate) fn take_word(&mut self, mv: Move)
        ensures { self.new ≡ after_word self.old (stream_of mv) }
    {
        if self.seed.is_some() {
            self.take_from(stream_of(mv));
        }
    }
}
