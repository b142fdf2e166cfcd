//! Writing pieces one after another.

ghost use Rattle.std.specs.Prelude.{◌+◌, ◌<◌, ◌^◌};
ghost use Rattle.std.specs.List.{flat_map};
ghost use Rattle.hs_base.specs.Outside.{CountsFaults};
ghost use Rattle.bad_free_report.specs.Putting.{Puts};

use hs_base::{Failed, Sink, put_all};

/// Writes all of these pieces to the sink, in order. After a failure, which is the last call on the sink, a prefix of
/// their bytes was taken.
pub(crate) fn put_parts<E: Sink>(err: &mut E, parts: &[&[u8]]) -> Result<(), Failed>
    requires { E.faults err.old + 1 < 2 ^ 64 }
    ensures bytes { Puts E.Sink err.old err.new (flat_map (λ part. part.now) parts.now) result }
    ensures cause { CountsFaults (E.faults err.old) (E.faults err.new) result }
{
    for part in parts {
        put_all(err, part)?;
    }
    Ok(())
}
