//! The names in a core, by number: `-` where there is none.

ghost use Rattle.std.specs.Prelude.{◌≡◌, option_copied};
ghost use Rattle.bad_free_report.specs.Report.{func_name, local_name, register_name, static_name};

use core_tree::Core;

/// The name of a function.
pub(crate) fn func_name(core: &Core, func: u32) -> &[u8]
    ensures { result.now ≡ func_name core.now func }
{
    match core.funcs.get(func as usize) {
        Some(func) => func.name.as_slice(),
        None => b"-",
    }
}

/// The name of a function's register, which a local or a named parameter has.
pub(crate) fn register_name(core: &Core, func: u32, register: u32) -> Option<&[u8]>
    ensures { option_copied result ≡ register_name core.now func register }
{
    let func = core.funcs.get(func as usize)?;
    let register = func.regs.get(register as usize)?;
    match &register.name {
        Some(name) => Some(name.as_slice()),
        None => None,
    }
}

/// The name of a static. A string literal's has none.
pub(crate) fn static_name(core: &Core, index: u32) -> &[u8]
    ensures { result.now ≡ static_name core.now index }
{
    match core.statics.get(index as usize) {
        Some(named) => match &named.name {
            Some(name) => name.as_slice(),
            None => b"-",
        },
        None => b"-",
    }
}

/// The name of a function's memory local.
pub(crate) fn local_name(core: &Core, func: u32, index: u32) -> &[u8]
    ensures { result.now ≡ local_name core.now func index }
{
    match core.funcs.get(func as usize) {
        Some(func) => match func.mems.get(index as usize) {
            Some(local) => local.name.as_slice(),
            None => b"-",
        },
        None => b"-",
    }
}
