//! Writing several texts.
#![tactic(auto, using(cf_io::proofs::Owing::owing))]

ghost use Rattle.std.specs.Prelude.{◌++◌, OnOk, OnErr};
ghost use Rattle.cf_io.specs.Causes.{HasCause};
ghost use Rattle.cf_io.specs.Puts.{Writes, WritesFront};

use cf_io::{Failed, Sink, put_all};

/// Writes two texts.
pub fn put_two<K: Sink>(out: &mut K, first: &[u8], second: &[u8]) -> Result<(), Failed>
    ensures ok { OnOk result (Writes (K.written out.old) (K.written out.new) (first.now ++ second.now)) }
    ensures err { OnErr result (WritesFront (K.written out.old) (K.written out.new) (first.now ++ second.now)) }
    ensures cause { HasCause (K.faults out.old) (K.faults out.new) result }
{
    put_all(out, first)?;
    put_all(out, second)
}

/// Writes three texts.
pub fn put_three<K: Sink>(
    out: &mut K,
    first: &[u8],
    second: &[u8],
    third: &[u8],
) -> Result<(), Failed>
    ensures ok { OnOk result (Writes (K.written out.old) (K.written out.new) (first.now ++ second.now ++ third.now)) }
    ensures err { OnErr result (WritesFront (K.written out.old) (K.written out.new) (first.now ++ second.now ++ third.now)) }
    ensures cause { HasCause (K.faults out.old) (K.faults out.new) result }
{
    put_two(out, first, second)?;
    put_all(out, third)
}
