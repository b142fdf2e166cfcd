//! Writing pieces one after another.

ghost use Rattle.std.specs.Prelude.{◌+◌, ◌<◌, ◌^◌};
ghost use Rattle.std.specs.List.{flat_map};
ghost use Rattle.hs_base.specs.Outside.{CountsFaults};
ghost use Rattle.hs_base.specs.PutAll.{PutsAll};

use hs_base::{Failed, Sink, put_all};

/// Writes all of these pieces to the sink, in order. After a failure, which is the last call on the sink, a prefix of
/// their bytes was taken.
pub(crate) fn put_parts<S: Sink>(out: &mut S, parts: &[&[u8]]) -> Result<(), Failed>
    requires { S.faults out.old + 1 < 2 ^ 64 }
    ensures bytes { PutsAll (S.taken out.old) (S.taken out.new) (flat_map (λ part. part.now) parts.now) result }
    ensures cause { CountsFaults (S.faults out.old) (S.faults out.new) result }
{
    for part in parts {
        put_all(out, part)?;
    }
    Ok(())
}
