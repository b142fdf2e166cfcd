//! The core of a text.

ghost use Rattle.std.specs.Prelude.{◌≡◌, ◌++◌, None, IfOk, length, map, replicate};
ghost use Rattle.elaboration.specs.Context.{Context};
ghost use Rattle.elaboration.specs.Resolving.{variable_static, literal_static, function_of, core_of};
ghost use Rattle.elab_core.specs.Programs.{AreFunctions, IsFunction, WithVariables, nameless};

use crate::names::plain_name;
use crate::numbers::Numbers;
use crate::points::{count, points_of};
use crate::statics::{literal, variable};
use c_types::Tags;
use core_tree::{Core, Func, Reg, Static};
use elab_base::{Declared, Elaborator, Parts, Variable, Walked, fit};
use hs_base::{Items, NoMemory};
use std::alloc::Global;

/// Adds registers without names.
fn with_registers(registers: Vec<Reg>, count: u32, pointer: bool) -> Result<Vec<Reg>, NoMemory>
    ensures { IfOk result (λ r. r.items ≡ registers.items ++ nameless count pointer) }
{
    let mut registers = registers;
    for made in 0..count {
        let _ = made;
        registers.push(Reg {
            name: None,
            pointer,
        })?;
    }
    Ok(registers)
}

/// A function of the core, where so many statics are variables and these functions are declared.
fn function(
    alloc: Global,
    variables: u32,
    functions: &[Declared],
    walked: Walked,
) -> Result<Func, NoMemory>
    ensures { IsFunction variables functions.now walked result }
{
    let (name, params, running, code) = walked.into_parts();
    let (line, locals, mems, formats) = running.into_parts();
    let (labels, integers, pointers) = (code.labels(), code.most_integers(), code.most_pointers());
    let pieces = code.into_pieces().into_vec();
    let total = count(&pieces)?;
    let points = points_of(alloc, &pieces, labels, total)?;
    let numbers = Numbers {
        alloc,
        locals: fit(locals.len())?,
        integers,
        variables,
        functions,
        points: &points,
        total,
    };
    let body = numbers.body(pieces)?;
    let registers = with_registers(locals, integers, false)?;
    let registers = with_registers(registers, pointers, true)?;
    Ok(Func {
        name: plain_name(name),
        line,
        params,
        regs: Items::from(registers),
        mems: Items::from(mems),
        body,
        formats: Items::from(formats),
    })
}

/// The functions of the core in order of definition.
fn all_functions(
    alloc: Global,
    variables: u32,
    functions: &[Declared],
    walked: Vec<Walked>,
) -> Result<Items<Func>, NoMemory>
    ensures { AreFunctions variables functions.now walked.items result }
{
    let mut all = Items::new(alloc);
    for one in walked {
        all.push(function(alloc, variables, functions, one)?)?;
    }
    Ok(all)
}

/// The statics of the core: variables, and then literals.
fn all_variables(
    alloc: Global,
    count: u32,
    variables: Vec<Variable>,
) -> Result<Items<Static>, NoMemory>
    ensures { WithVariables count (λ c. IfOk result (λ r. r ≡ map (variable_static c) variables.items)) }
{
    let mut all = Items::new(alloc);
    for one in variables {
        all.push(variable(alloc, count, one)?)?;
    }
    Ok(all)
}

/// Adds literals to statics.
fn with_literals(
    alloc: Global,
    statics: Items<Static>,
    literals: Vec<Items<u8>>,
) -> Result<Items<Static>, NoMemory>
    ensures { IfOk result (λ r. r ≡ statics ++ map literal_static literals.items) }
{
    let mut all = statics;
    for bytes in literals {
        all.push(literal(alloc, bytes)?)?;
    }
    Ok(all)
}

/// The core of a text whose walk is finished, and its tags.
pub fn core_of(finished: Elaborator) -> Result<(Core, Tags), NoMemory>
    ensures core { IfOk result (λ r. r.0 ≡ core_of finished) }
    ensures tags { IfOk result (λ r. r.1 ≡ finished.tags) }
{
    let alloc = finished.alloc();
    let Parts {
        tags,
        variables,
        literals,
        functions,
        walked,
    } = finished.into_parts();
    let count = fit(variables.len())?;
    let statics = all_variables(alloc, count, variables)?;
    let statics = with_literals(alloc, statics, literals)?;
    let funcs = all_functions(alloc, count, &functions, walked)?;
    Ok((Core { statics, funcs }, tags))
}
