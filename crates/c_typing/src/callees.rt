//! What is called, and the rules of calls (C99 6.5.1, 6.5.2.2).

ghost use Rattle.std.specs.Prelude.{◌≡◌, ℕ, ◌+◌, length, map, option_map, Ok, Some, IfOk};
ghost use Rattle.c_types.specs.Types.{plain, plain_list};
ghost use Rattle.c_types.specs.TagTable.{TagTable};
ghost use Rattle.c_decls.specs.Named.{plain_named};
ghost use Rattle.c_decls.specs.Refusals.{Answers, Meets};
ghost use Rattle.c_decls.specs.Typed.{plain_typed, value};
ghost use Rattle.c_decls.specs.Callees as rules;
ghost use Rattle.c_typing.specs.Callee.{plain_callee, plain_basic, plain_basics, takes, function_of, first_bar};

use crate::formats::suits_format;
use crate::places::unconverted;
use c_decls::{BuiltIn, Constant, Folded, Named, TypeError, TypeKind, Typed, is_same, refused};
use c_types::{CType, IntType, Signature, Tags};
use hs_base::{Items, Line, NoMemory};
use std::alloc::Global;

/// What is called: a function with its result and its parameters; `printf`, which takes arguments by its format; or no
/// function.
#[derive(Drop)]
pub enum Callee {
    Takes(Signature),
    Prints,
    NoFunction,
}

/// A type in the list of the built-in functions.
#[derive(Clone, Copy)]
enum Basic {
    Void,
    VoidPointer,
    Text,
    Size,
    Number,
}

impl Basic {
    /// The type.
    fn ty(self, alloc: Global) -> Result<CType, NoMemory>
        ensures { IfOk result (λ ty. plain ty ≡ plain_basic self) }
    {
        match self {
            Basic::Void => Ok(CType::Void),
            Basic::VoidPointer => CType::pointer_to(alloc, CType::Void),
            Basic::Text => CType::pointer_to(alloc, CType::Int(IntType::Char)),
            Basic::Size => Ok(CType::Int(IntType::UInt)),
            Basic::Number => Ok(CType::Int(IntType::Int)),
        }
    }
}

/// The types of parameters.
fn basic_types(alloc: Global, params: &[Basic]) -> Result<Vec<CType>, NoMemory>
    ensures { IfOk result (λ types. plain_list types.items ≡ plain_basics params.now) }
{
    let mut types = Vec::new(alloc);
    for param in params {
        types.push(param.ty(alloc)?)?;
    }
    Ok(types)
}

/// A function in the list of the built-in functions.
#[derive(Clone, Copy)]
struct Row {
    answer: Basic,
    params: &'static [Basic],
}

/// The row of a built-in function other than `printf` (C99 7.19 to 7.21).
fn row_of(name: BuiltIn) -> Option<Row>
    ensures { option_map (λ row. takes row.answer row.params.now) result ≡ function_of name }
{
    let (answer, params): (Basic, &'static [Basic]) = match name {
        BuiltIn::Malloc => (Basic::VoidPointer, &[Basic::Size]),
        BuiltIn::Calloc => (Basic::VoidPointer, &[Basic::Size, Basic::Size]),
        BuiltIn::Realloc => (Basic::VoidPointer, &[Basic::VoidPointer, Basic::Size]),
        BuiltIn::Free => (Basic::Void, &[Basic::VoidPointer]),
        BuiltIn::Exit => (Basic::Void, &[Basic::Number]),
        BuiltIn::Abort => (Basic::Void, &[]),
        BuiltIn::Memcpy | BuiltIn::Memmove => (
            Basic::VoidPointer,
            &[Basic::VoidPointer, Basic::VoidPointer, Basic::Size],
        ),
        BuiltIn::Memset => (
            Basic::VoidPointer,
            &[Basic::VoidPointer, Basic::Number, Basic::Size],
        ),
        BuiltIn::Strlen => (Basic::Size, &[Basic::Text]),
        BuiltIn::Strcmp => (Basic::Number, &[Basic::Text, Basic::Text]),
        BuiltIn::Getchar => (Basic::Number, &[]),
        BuiltIn::Putchar => (Basic::Number, &[Basic::Number]),
        BuiltIn::Puts => (Basic::Number, &[Basic::Text]),
        _ => return None,
    };
    Some(Row { answer, params })
}

/// What a built-in name is that is called.
fn built_in_callee(alloc: Global, name: BuiltIn) -> Result<Callee, NoMemory>
    ensures { IfOk result (λ callee. plain_callee callee ≡ rules.built_in_callee name) }
{
    if let BuiltIn::Printf = name {
        return Ok(Callee::Prints);
    }
    match row_of(name) {
        Some(row) => Ok(Callee::Takes(Signature {
            result: row.answer.ty(alloc)?,
            params: basic_types(alloc, row.params)?,
        })),
        None => Ok(Callee::NoFunction),
    }
}

/// `NULL`: a null pointer constant of type `void *`.
fn null(alloc: Global) -> Result<Typed, NoMemory>
    ensures { IfOk result (λ e. Ok (plain_typed e) ≡ rules.built_in_value 0 BuiltIn.Null None) }
{
    Ok(Typed {
        ty: CType::pointer_to(alloc, CType::Void)?,
        is_place: false,
        folded: Folded::Varies,
        is_null: true,
    })
}

/// A built-in name in an expression: `NULL`, a constant, or a function that is not called.
fn built_in_named(alloc: Global, line: Line, name: Option<BuiltIn>) -> Result<Typed, TypeError>
    ensures { Meets plain_typed result (rules.built_in_named line name) }
{
    match name {
        None => refused(TypeKind::Undeclared, line),
        Some(BuiltIn::Null) => Ok(null(alloc)?),
        Some(BuiltIn::SizeT) => refused(TypeKind::Operands, line),
        Some(name) => match name.constant() {
            Some(constant) => Ok(Typed::constant(constant)),
            None => refused(TypeKind::LeftOut, line),
        },
    }
}

/// A name in an expression (C99 6.5.1). A function stands for itself in calls alone.
pub fn named(alloc: Global, line: Line, named: Option<&Named>) -> Result<Typed, TypeError>
    ensures { Meets plain_typed result (rules.named line (option_map (λ n. plain_named n.now) named.entry)) }
{
    match named {
        None => refused(TypeKind::Undeclared, line),
        Some(Named::Object { ty, .. }) => Ok(Typed::place(*ty)),
        Some(Named::Register { ty, .. }) => Ok(Typed::place(*ty)),
        Some(Named::Function { .. }) => refused(TypeKind::LeftOut, line),
        Some(Named::Typedef { .. }) => refused(TypeKind::Operands, line),
        Some(Named::Constant { ty, value }) => Ok(Typed::constant(Constant {
            ty: *ty,
            value: *value,
        })),
        Some(Named::BuiltIn { index }) => { built_in_named(alloc, line, BuiltIn::numbered(*index)) }
        Some(Named::Tag { .. }) => refused(TypeKind::Operands, line),
    }
}

/// A value that is called is no function.
pub fn no_function(line: Line, tags: &Tags, e: Typed) -> Result<Callee, TypeError>
    ensures { Answers plain_callee result (rules.no_function line tags.now (Ok (plain_typed e))) }
{
    e.wanted_value(line, tags)?;
    Ok(Callee::NoFunction)
}

/// What a function is that is called.
fn function_callee(alloc: Global, ty: &CType) -> Result<Callee, NoMemory>
    ensures { IfOk result (λ callee. plain_callee callee ≡ rules.function_callee (plain ty.now)) }
{
    match *ty {
        CType::Function(signature) => Ok(Callee::Takes(signature.try_clone(alloc)?)),
        CType::Void
        | CType::Int(_)
        | CType::Pointer(_)
        | CType::Array(_, _)
        | CType::Struct(_)
        | CType::Union(_) => Ok(Callee::NoFunction),
    }
}

/// A built-in name that is called.
fn built_in_called(
    alloc: Global,
    line: Line,
    tags: &Tags,
    name: Option<BuiltIn>,
) -> Result<Callee, TypeError>
    ensures { Meets plain_callee result (rules.built_in_called line tags.now name (rules.callee_at name)) }
{
    let callee = match name {
        Some(name) => built_in_callee(alloc, name)?,
        None => Callee::NoFunction,
    };
    match callee {
        Callee::NoFunction => no_function(line, tags, built_in_named(alloc, line, name)?),
        other => Ok(other),
    }
}

/// Whether a type is that of the built-in function that a name stands for, so that a declaration by hand may stand (C99 7.1.4).
/// `printf` has no such type, since the language writes no parameters by a format.
///
/// # Errors
///
/// [`NoMemory`], where there is none for the type of the built-in function.
pub fn is_built_in(alloc: Global, ty: &CType, name: Option<&Named>) -> Result<bool, NoMemory>
    ensures { IfOk result (λ is. is ≡ rules.is_built_in (plain ty.now) (option_map (λ n. plain_named n.now) name.entry)) }
{
    let Some(Named::BuiltIn { index }) = name else {
        return Ok(false);
    };
    let Some(name) = BuiltIn::numbered(*index) else {
        return Ok(false);
    };
    match built_in_callee(alloc, name)? {
        Callee::Takes(signature) => Ok(is_same(ty, &CType::function_of(alloc, signature)?)),
        Callee::Prints | Callee::NoFunction => Ok(false),
    }
}

/// A name that is called (C99 6.5.2.2).
pub fn called(
    alloc: Global,
    line: Line,
    tags: &Tags,
    name: Option<&Named>,
) -> Result<Callee, TypeError>
    ensures { Meets plain_callee result (rules.called line tags.now (option_map (λ n. plain_named n.now) name.entry)) }
{
    match name {
        Some(Named::Function { ty, .. }) => Ok(function_callee(alloc, ty)?),
        Some(Named::BuiltIn { index }) => {
            built_in_called(alloc, line, tags, BuiltIn::numbered(*index))
        }
        other => no_function(line, tags, named(alloc, line, other)?),
    }
}

/// Why the first argument that does not convert to its parameter does not.
fn first_bar(params: &[CType], arguments: &[Typed]) -> Option<TypeKind>
    ensures { result ≡ first_bar (plain_list params.now) (map plain_typed arguments.now) }
{
    for i in 0..params.len() {
        if i >= arguments.len() {
            return None;
        }
        if let Some(kind) = unconverted(&params[i], &arguments[i]) {
            return Some(kind);
        }
    }
    None
}

/// A call of `printf` with its format, where its first argument is string literals (C99 7.19.6.3).
fn prints(line: Line, literal: &Option<Items<u8>>, arguments: &[Typed]) -> Result<Typed, TypeError>
    ensures { Answers plain_typed result
        (rules.prints line literal.now (map plain_typed arguments.now)) }
{
    let Some(bytes) = literal else {
        return refused(TypeKind::Format, line);
    };
    if arguments.is_empty() {
        return refused(TypeKind::Format, line);
    }
    if suits_format(bytes.as_slice(), arguments) {
        Ok(Typed::int())
    } else {
        refused(TypeKind::Format, line)
    }
}

/// A call: the number of its arguments, and then each (C99 6.5.2.2).
pub fn call(
    line: Line,
    literal: &Option<Items<u8>>,
    callee: Callee,
    arguments: &[Typed],
) -> Result<Typed, TypeError>
    ensures { Answers plain_typed result
        (rules.call line literal.now (plain_callee callee) (map plain_typed arguments.now)) }
{
    match callee {
        Callee::Takes(signature) => {
            if arguments.len() != signature.params.len() {
                return refused(TypeKind::ArgumentCount, line);
            }
            match first_bar(&signature.params, arguments) {
                Some(kind) => refused(kind, line),
                None => Ok(Typed::value(signature.result)),
            }
        }
        Callee::Prints => prints(line, literal, arguments),
        Callee::NoFunction => refused(TypeKind::Operands, line),
    }
}
