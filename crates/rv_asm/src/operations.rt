//! The names of directives and pseudo-instructions.

ghost use Rattle.std.specs.Prelude.{◌≡◌};
ghost use Rattle.rv_asm.specs.Operations.{directive_named, pseudo_named};
ghost use Rattle.rv_asm.specs.Operands.{bytes_of_width};

use rv_inst::Cond;
use rv_text::look_up;

/// How many bytes a number takes: 1, 2 or 4.
#[derive(Clone, Copy)]
pub enum Width {
    Byte,
    Half,
    Word,
}

/// A directive to the assembler.
#[derive(Clone, Copy)]
pub enum Directive {
    Text,
    Data,
    Globl,
    Numbers(Width),
    Ascii,
    Asciz,
    Space,
    Align,
}

/// A name for one or two instructions.
#[derive(Clone, Copy)]
pub enum Pseudo {
    Nop,
    Li,
    La,
    Mv,
    Not,
    Neg,
    J,
    Jr,
    Ret,
    Call,
    BranchZero(Cond),
}

const DIRECTIVES: [(&[u8], Directive); 10] = [
    (b".text", Directive::Text),
    (b".data", Directive::Data),
    (b".globl", Directive::Globl),
    (b".word", Directive::Numbers(Width::Word)),
    (b".half", Directive::Numbers(Width::Half)),
    (b".byte", Directive::Numbers(Width::Byte)),
    (b".ascii", Directive::Ascii),
    (b".asciz", Directive::Asciz),
    (b".space", Directive::Space),
    (b".align", Directive::Align),
];

const PSEUDOS: [(&[u8], Pseudo); 14] = [
    (b"nop", Pseudo::Nop),
    (b"li", Pseudo::Li),
    (b"la", Pseudo::La),
    (b"mv", Pseudo::Mv),
    (b"not", Pseudo::Not),
    (b"neg", Pseudo::Neg),
    (b"j", Pseudo::J),
    (b"jr", Pseudo::Jr),
    (b"ret", Pseudo::Ret),
    (b"call", Pseudo::Call),
    (b"beqz", Pseudo::BranchZero(Cond::Eq)),
    (b"bnez", Pseudo::BranchZero(Cond::Ne)),
    (b"bltz", Pseudo::BranchZero(Cond::Lt)),
    (b"bgez", Pseudo::BranchZero(Cond::Ge)),
];

impl Width {
    /// How many bytes a number takes.
    pub fn bytes(self) -> usize
        ensures { result ≡ bytes_of_width self }
    {
        match self {
            Width::Byte => 1,
            Width::Half => 2,
            Width::Word => 4,
        }
    }
}

impl Directive {
    /// The directive of a name.
    #[tactic(auto, unfolding(crate::specs::Operations::directive_named))]
    pub fn named(name: &[u8]) -> Option<Directive>
        ensures { result ≡ directive_named name.now }
    {
        look_up(&DIRECTIVES, name)
    }
}

impl Pseudo {
    /// The pseudo-instruction of a name.
    #[tactic(auto, unfolding(crate::specs::Operations::pseudo_named))]
    pub fn named(name: &[u8]) -> Option<Pseudo>
        ensures { result ≡ pseudo_named name.now }
    {
        look_up(&PSEUDOS, name)
    }
}
