//! The kinds of moves by their names.
ghost use Rattle.std.specs.Prelude.{◌≡◌, ◌<◌, ◌≤◌, IfSome, length};
ghost use Rattle.run_scripts.specs.Kinds.{name_at, name_of, kind_named, place_named};

/// A move without its numbers and its guess: the meaning of the first word of its line.
#[derive(Clone, Copy)]
pub(crate) enum Kind {
    Issue,
    Emit,
    Climb,
    Fall,
    Meet,
    Execute,
    Send,
    Launch,
    Slide,
    Access,
    Recover,
    Leave,
    Exit,
    Serve,
}

/// All kinds.
const KINDS: [Kind; 14] = [
    Kind::Issue,
    Kind::Emit,
    Kind::Climb,
    Kind::Fall,
    Kind::Meet,
    Kind::Execute,
    Kind::Send,
    Kind::Launch,
    Kind::Slide,
    Kind::Access,
    Kind::Recover,
    Kind::Leave,
    Kind::Exit,
    Kind::Serve,
];

impl Kind {
    fn name(self) -> &'static [u8]
        ensures { result.now ≡ name_of self }
    {
        match self {
            Kind::Issue => b"issue",
            Kind::Emit => b"emit",
            Kind::Climb => b"climb",
            Kind::Fall => b"fall",
            Kind::Meet => b"meet",
            Kind::Execute => b"execute",
            Kind::Send => b"send",
            Kind::Launch => b"launch",
            Kind::Slide => b"slide",
            Kind::Access => b"access",
            Kind::Recover => b"recover",
            Kind::Leave => b"leave",
            Kind::Exit => b"exit",
            Kind::Serve => b"serve",
        }
    }

    /// The kind with this name.
    #[tactic(auto, unfolding(crate::specs::Kinds::kind_named))]
    pub(crate) fn named(word: &[u8]) -> Option<Kind>
        ensures { result ≡ kind_named word.now }
    {
        KINDS.iter().copied().find(|kind| kind.name() == word)
    }
}

/// The index of the kind with this name, among the kinds in the order of `Move`, from 0.
#[tactic(auto, unfolding(crate::specs::Kinds::place_named))]
pub fn place_named(word: &[u8]) -> Option<usize>
    ensures place { result ≡ place_named word.now }
    ensures within { IfSome result (λ place. place < 14) }
{
    KINDS.iter().position(|kind| kind.name() == word)
}

/// The name of the kind at an index among the kinds in the order of `Move`, from 0: the first word of its lines, of at
/// most seven letters.
#[tactic(auto, using(crate::proofs::Names::named))]
pub fn kind_name(place: usize) -> &'static [u8]
    requires { place < 14 }
    ensures name { result.now ≡ name_at place }
    ensures few { length result.now ≤ 7 }
{
    KINDS[place].name()
}
