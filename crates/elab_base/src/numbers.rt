//! Numbers as the core has them.

ghost use Rattle.std.specs.Prelude.{◌≡◌, ◌<◌, ◌^◌, IfOk};

use hs_base::NoMemory;

/// A number as the core has it. No memory holds what does not fit.
pub fn fit(number: usize) -> Result<u32, NoMemory>
    ensures { IfOk result (λ fit. fit ≡ number) }
{
    u32::try_from(number).map_err(|_| NoMemory)
}
