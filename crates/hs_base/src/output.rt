//! Writing a whole slice to a sink.

ghost use Rattle.std.specs.Prelude.{◌+◌, ◌<◌, ◌^◌};
ghost use Rattle.hs_base.specs.Outside.{CountsFaults};
ghost use Rattle.hs_base.specs.PutAll.{PutsAll};

use crate::outside::{Failed, Sink};

/// Writes all of these bytes to the sink, in order, in as many calls as it wants. After a failure, which is the last
/// call on the sink, a prefix of the bytes was taken.
pub fn put_all<O: Sink>(out: &mut O, bytes: &[u8]) -> Result<(), Failed>
    requires { O.faults out.old + 1 < 2 ^ 64 }
    ensures bytes { PutsAll (O.taken out.old) (O.taken out.new) bytes.now result }
    ensures cause { CountsFaults (O.faults out.old) (O.faults out.new) result }
{
    let mut done = 0;
    while done < bytes.len() {
        done += out.put(&bytes[done..])?;
    }
    Ok(())
}
