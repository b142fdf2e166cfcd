//! The statics of a core.

ghost use Rattle.std.specs.Prelude.{◌≡◌, ℕ, All, IfOk, IsPermutation, IsSortedByKey, map, take};
ghost use Rattle.std.specs.Ordering.{nat_cmp};
ghost use Rattle.meaning_laws.specs.code.Objects.{IsByte};
ghost use Rattle.core_tree.specs.declared.program.Static.{Static as CoreStatic};
ghost use Rattle.object_meaning.specs.compiled.Compiled.{IsTrimmed};
ghost use Rattle.flat_code.specs.declared.program.StaticInit.{StaticInit as Init};
ghost use Rattle.flat_codegen.specs.Statics.{IsInit, AreInits};

use crate::emitter::{fit, layout_copy};
use c_types::Layout;
use core_tree::Static;
use flat_code::StaticInit;
use hs_base::{Items, NoMemory};
use std::alloc::Global;

/// How many bytes stand in front of the zeros at the end.
fn length_without_zeros(bytes: &[u8]) -> usize
    ensures { IsTrimmed bytes.now (take result bytes.now) }
{
    for place in (0..bytes.len()).rev() {
        if bytes[place] != 0 {
            return place + 1;
        }
    }
    0
}

/// A copy of some bytes without the zeros at the end.
fn trimmed(alloc: Global, bytes: &[u8]) -> Result<Items<u8>, NoMemory>
    ensures same { IfOk result (λ trimmed. IsTrimmed bytes.now trimmed) }
    ensures bytes { IfOk result (λ trimmed. All IsByte trimmed) }
{
    let mut copy = bytes.to_vec(alloc)?;
    copy.truncate(length_without_zeros(bytes));
    Ok(Items::from(copy))
}

/// A copy of some pointers, ascending by their slots.
fn by_slots(alloc: Global, pointers: &[(u32, u32, u32)]) -> Result<Items<(u32, u32, u32)>, NoMemory>
    ensures same { IfOk result (λ sorted. IsPermutation pointers.now sorted) }
    ensures ascending { IfOk result (λ sorted. IsSortedByKey (λ (p : ℕ × ℕ × ℕ). p.0) nat_cmp sorted) }
{
    let mut sorted = pointers.to_vec(alloc)?;
    sorted.sort_unstable_by_key(|pointer| pointer.0);
    Ok(Items::from(sorted))
}

/// What a static holds first, where its layout has a number.
fn init(alloc: Global, layout: u32, one: &Static) -> Result<StaticInit, NoMemory>
    ensures first { IfOk result (λ init. IsInit layout one.now init) }
    ensures bytes { IfOk result (λ init. All IsByte init.bytes) }
{
    Ok(StaticInit {
        layout,
        bytes: trimmed(alloc, one.start.bytes.as_slice())?,
        pointers: by_slots(alloc, one.start.pointers.as_slice())?,
    })
}

/// What statics hold first. The layout of each has the static's own number.
pub(crate) fn inits(alloc: Global, statics: &[Static]) -> Result<Items<StaticInit>, NoMemory>
    ensures first { IfOk result (λ inits. AreInits statics.now inits) }
    ensures bytes { IfOk result (λ inits. All (λ (init : Init). All IsByte init.bytes) inits) }
{
    let mut inits = Items::new(alloc);
    for one in statics {
        let layout = fit(inits.len())?;
        inits.push(init(alloc, layout, one)?)?;
    }
    Ok(inits)
}

/// The layouts of statics.
pub(crate) fn layouts(alloc: Global, statics: &[Static]) -> Result<Items<Layout>, NoMemory>
    ensures { IfOk result (λ layouts. layouts ≡ map (λ (static : CoreStatic). static.layout) statics.now) }
{
    let mut layouts = Items::new(alloc);
    for one in statics {
        layouts.push(layout_copy(alloc, &one.layout)?)?;
    }
    Ok(layouts)
}
