//! The rules of casts, choices, members and assignments (C99 6.5.2, 6.5.3.4, 6.5.4, 6.5.15, 6.5.16).

ghost use Rattle.std.specs.Prelude.{◌≡◌, ◌<◌, ◌-◌, ◌*◌, ◌^◌, ◌⊎◌, ◌&&◌, ◌||◌, not, cond, Ok, IfOk, IfSome, option_map};
ghost use Rattle.c_types.specs.Types.{plain};
ghost use Rattle.c_types.specs.TagTable.{TagTable, size_in};
ghost use Rattle.c_decls.specs.Refusals.{Answers, Meets, refused as refusal};
ghost use Rattle.c_decls.specs.Typed.{plain_typed, value, place, operand, Number};
ghost use Rattle.c_decls.specs.TypeRules.{moving};
ghost use Rattle.c_decls.specs.PlaceRules as rules;

use c_decls::{
    Folded, LayeredType, Operand, TypeError, TypeKind, Typed, chosen, common_type, has_no_size,
    immovable, is_array, is_record, is_same, is_scalar, is_void, operand_of, refused, value_unless,
};
use c_tree::AssignOp;
use c_types::{CType, IntType, Tags, size_of};
use hs_base::{Line, NoMemory};

/// A number converted to a type (C99 6.3.1.3).
fn converted(ty: IntType, folded: Folded) -> Folded
    ensures { result ≡ rules.converted_value ty folded }
{
    match folded {
        Folded::Is(n) => Folded::Is(ty.kind().wrap(n)),
        Folded::Traps => Folded::Traps,
        Folded::Varies => Folded::Varies,
    }
}

/// A value of a type, or a refusal.
fn value_if(holds: bool, kind: TypeKind, line: Line, ty: CType) -> Result<Typed, TypeError>
    ensures { Answers plain_typed result (cond holds (Ok (value (plain ty))) (refusal kind line)) }
{
    if holds {
        Ok(Typed::value(ty))
    } else {
        refused(kind, line)
    }
}

/// A cast of a value to a type (C99 6.5.4).
pub fn cast(line: Line, ty: CType, e: &Typed) -> Result<Typed, TypeError>
    ensures { Answers plain_typed result (rules.cast line (plain ty) (plain_typed e.now)) }
{
    if is_void(&ty) {
        return Ok(Typed::value(ty));
    }
    match (operand_of(&ty), operand_of(&e.ty)) {
        (Operand::Number(int), Operand::Number(_)) => {
            Ok(Typed::integer(int, converted(int, e.folded)))
        }
        (Operand::Number(_), Operand::PointerTo(_)) => refused(TypeKind::PointerAndInteger, line),
        (Operand::PointerTo(_), Operand::PointerTo(_)) => Ok(Typed::value(ty)),
        (Operand::PointerTo(target), Operand::Number(_)) => {
            let is_null = is_void(target);
            if e.is_null_constant() {
                Ok(Typed {
                    ty,
                    is_place: false,
                    folded: Folded::Varies,
                    is_null,
                })
            } else {
                refused(TypeKind::PointerAndInteger, line)
            }
        }
        (Operand::Neither, _) | (_, Operand::Neither) => refused(TypeKind::Operands, line),
    }
}

/// The choice between two pointers, by whether the first is chosen at once, and which of them point to void.
fn chosen_pointer(
    line: Line,
    is_first: bool,
    voids: (bool, bool),
    x: Typed,
    y: Typed,
) -> Result<Typed, TypeError>
    ensures { Answers plain_typed result
        (cond is_first (Ok (value (plain x.ty)))
        (cond x.is_null (Ok (value (plain y.ty)))
        (cond voids.0 (Ok (value (plain x.ty))) (cond voids.1 (Ok (value (plain y.ty))) (refusal TypeKind.Operands line))))) }
{
    if is_first {
        Ok(Typed::value(x.ty))
    } else if x.is_null {
        Ok(Typed::value(y.ty))
    } else if voids.0 {
        Ok(Typed::value(x.ty))
    } else if voids.1 {
        Ok(Typed::value(y.ty))
    } else {
        refused(TypeKind::Operands, line)
    }
}

/// The choice between two values, by a constant test or by one that varies.
fn choice_of(line: Line, test: Folded, x: Typed, y: Typed) -> Result<Typed, TypeError>
    ensures { Answers plain_typed result
        (rules.choice_types line test (plain_typed x) (plain_typed y) (operand (plain x.ty)) (operand (plain y.ty))) }
{
    match (operand_of(&x.ty), operand_of(&y.ty)) {
        (Operand::Number(s), Operand::Number(t)) => {
            let ty = common_type(s, t);
            let folded = chosen(test, converted(ty, x.folded), converted(ty, y.folded));
            Ok(Typed::integer(ty, folded))
        }
        (Operand::PointerTo(s), Operand::PointerTo(t)) => {
            let voids = (is_void(s), is_void(t));
            let same = is_same(s, t);
            chosen_pointer(line, same || y.is_null, voids, x, y)
        }
        (Operand::PointerTo(_), Operand::Number(_)) => value_if(
            y.is_null_constant(),
            TypeKind::PointerAndInteger,
            line,
            x.ty,
        ),
        (Operand::Number(_), Operand::PointerTo(_)) => value_if(
            x.is_null_constant(),
            TypeKind::PointerAndInteger,
            line,
            y.ty,
        ),
        (Operand::Neither, _) | (_, Operand::Neither) => {
            let both = is_void(&x.ty) && is_void(&y.ty);
            value_if(both, TypeKind::Operands, line, x.ty)
        }
    }
}

/// `?:` (C99 6.5.15).
pub fn choice(line: Line, test: &Typed, x: Typed, y: Typed) -> Result<Typed, TypeError>
    ensures { Answers plain_typed result (rules.choice line (plain_typed test.now) (plain_typed x) (plain_typed y)) }
{
    if is_scalar(&test.ty) {
        choice_of(line, test.folded, x, y)
    } else {
        refused(TypeKind::Operands, line)
    }
}

/// So many times a size. No bytes are none, however often.
fn all_of(count: u64, size: Option<u32>) -> Result<Option<u64>, NoMemory>
    ensures value { IfOk result (λ all. all ≡ option_map (λ n. n * count) size) }
    ensures counted { IfOk result (λ _. IfSome size (λ n. (n ≡ 0) ⊎ (count < 2 ^ 64 - 1))) }
{
    match size {
        None => Ok(None),
        Some(0) => Ok(Some(0)),
        Some(_) if count == u64::MAX => Err(NoMemory),
        Some(size) => Ok(Some(count.checked_mul(u64::from(size)).ok_or(NoMemory)?)),
    }
}

/// The size of a type, or `None` where it is incomplete, void or a function. What 64 bits do not count, which is above all
/// limits of types, is answered by want of memory.
pub fn measured(tags: &Tags, ty: &CType) -> Result<Option<u64>, NoMemory>
    ensures { IfOk result (λ size. size ≡ size_in tags.now (plain ty.now)) }
{
    let mut part = *ty;
    let mut count: u64 = 1;
    loop {
        match part {
            CType::Array(element, length) => {
                count = count.saturating_mul(u64::from(length));
                part = *element;
            }
            CType::Void
            | CType::Int(_)
            | CType::Pointer(_)
            | CType::Struct(_)
            | CType::Union(_)
            | CType::Function(_) => return all_of(count, size_of(tags, &part)),
        }
    }
}

/// So many times a size that is known.
fn so_often(count: u64, size: Option<u64>) -> Result<Option<u64>, NoMemory>
    ensures { IfOk result (λ all. all ≡ option_map (λ n. n * count) size) }
{
    match size {
        None => Ok(None),
        Some(size) => Ok(Some(size.checked_mul(count).ok_or(NoMemory)?)),
    }
}

/// The size of a type with layers, by the part of it that was measured last.
pub(crate) fn size_of_layered(tags: &Tags, ty: &LayeredType) -> Result<Option<u64>, NoMemory>
    ensures { IfOk result (λ size. size ≡ size_in tags.now ty.now) }
{
    let (part, count) = ty.part();
    let size = measured(tags, &part)?;
    so_often(count, size)
}

/// `sizeof` of a type of this size, if it has one (C99 6.5.3.4).
fn size_answer(line: Line, size: Option<u64>) -> Result<Typed, TypeError>
    ensures { Meets plain_typed result (rules.size_answer line size) }
{
    match size {
        Some(size) => Ok(Typed::integer(IntType::UInt, Folded::Is(i128::from(size)))),
        None => refused(TypeKind::Incomplete, line),
    }
}

/// `sizeof` of a type (C99 6.5.3.4).
pub fn size(line: Line, tags: &Tags, ty: &CType) -> Result<Typed, TypeError>
    ensures { Meets plain_typed result (rules.size line tags.now (plain ty.now)) }
{
    size_answer(line, measured(tags, ty)?)
}

/// `sizeof` of a type with layers (C99 6.5.3.4).
pub(crate) fn layered_size(line: Line, tags: &Tags, ty: &LayeredType) -> Result<Typed, TypeError>
    ensures { Meets plain_typed result (rules.size line tags.now ty.now) }
{
    size_answer(line, size_of_layered(tags, ty)?)
}

/// The element to which a pointer points, which may be moved in its array (C99 6.5.2.1).
fn element_behind(line: Line, tags: &Tags, target: CType) -> Result<Typed, TypeError>
    ensures { Answers plain_typed result (moving line tags.now (plain target) (place (plain target))) }
{
    match immovable(tags, &target) {
        Some(kind) => refused(kind, line),
        None => Ok(Typed::place(target)),
    }
}

/// The element of an array beside an integer.
fn element_of(line: Line, tags: &Tags, array: CType) -> Result<Typed, TypeError>
    ensures { Answers plain_typed result (rules.element_types line tags.now (operand (plain array)) (Number IntType.Int)) }
{
    match array {
        CType::Pointer(target) => element_behind(line, tags, *target),
        CType::Void
        | CType::Int(_)
        | CType::Array(_, _)
        | CType::Struct(_)
        | CType::Union(_)
        | CType::Function(_) => refused(TypeKind::Operands, line),
    }
}

/// `e[f]` (C99 6.5.2.1).
pub fn element(line: Line, tags: &Tags, e: Typed, f: Typed) -> Result<Typed, TypeError>
    ensures { Answers plain_typed result (rules.element line tags.now (plain_typed e) (plain_typed f)) }
{
    match (operand_of(&e.ty), operand_of(&f.ty)) {
        (Operand::PointerTo(_), Operand::Number(_)) => element_of(line, tags, e.ty),
        (Operand::Number(_), Operand::PointerTo(_)) => element_of(line, tags, f.ty),
        (Operand::PointerTo(_), Operand::PointerTo(_))
        | (Operand::Number(_), Operand::Number(_))
        | (Operand::Neither, _)
        | (_, Operand::Neither) => refused(TypeKind::Operands, line),
    }
}

/// Why a value does not convert to a type that is wanted: in an assignment, an argument, an initializer or a return (C99
/// 6.5.16.1).
pub fn unconverted(ty: &CType, e: &Typed) -> Option<TypeKind>
    ensures { result ≡ rules.unconverted (plain ty.now) (plain_typed e.now) }
{
    match (operand_of(ty), operand_of(&e.ty)) {
        (Operand::Number(_), Operand::Number(_)) => None,
        (Operand::Number(_), Operand::PointerTo(_)) => Some(TypeKind::PointerAndInteger),
        (Operand::PointerTo(target), Operand::PointerTo(source)) => {
            if is_same(target, source) || is_void(target) || is_void(source) {
                None
            } else {
                Some(TypeKind::Assignment)
            }
        }
        (Operand::PointerTo(_), Operand::Number(_)) => {
            if e.is_null_constant() {
                None
            } else {
                Some(TypeKind::PointerAndInteger)
            }
        }
        (Operand::Neither, _) | (_, Operand::Neither) => Some(TypeKind::Assignment),
    }
}

/// Whether an assignment may write: a place, and no array (C99 6.3.2.1).
pub fn is_written(e: &Typed) -> bool
    ensures { result ≡ rules.is_written (plain_typed e.now) }
{
    e.is_place && !is_array(&e.ty)
}

/// `=` to a struct or a union, from a place of the same type.
fn record_assigned(line: Line, tags: &Tags, target: Typed, e: &Typed) -> Result<Typed, TypeError>
    ensures { Answers plain_typed result
        (rules.record_assigned line tags.now (plain_typed target) (plain_typed e.now)) }
{
    if e.has_no_value() {
        refused(TypeKind::Operands, line)
    } else if !target.is_place {
        refused(TypeKind::NotLvalue, line)
    } else if has_no_size(tags, &target.ty) {
        refused(TypeKind::Incomplete, line)
    } else if !is_same(&target.ty, &e.ty) {
        refused(TypeKind::Assignment, line)
    } else {
        Ok(Typed::value(target.ty))
    }
}

/// `=` to a scalar, from a value.
fn scalar_assigned(line: Line, target: Typed, e: &Typed) -> Result<Typed, TypeError>
    ensures { Answers plain_typed result (rules.scalar_assigned line (plain_typed target) (plain_typed e.now)) }
{
    if !is_written(&target) {
        refused(TypeKind::NotLvalue, line)
    } else if is_void(&target.ty) {
        refused(TypeKind::Incomplete, line)
    } else {
        let bar = unconverted(&target.ty, e);
        value_unless(bar, line, target.ty)
    }
}

/// `=` (C99 6.5.16.1). The right side stands at a line of its own.
pub fn assigned(
    line: Line,
    right: Line,
    tags: &Tags,
    target: Typed,
    e: Typed,
) -> Result<Typed, TypeError>
    ensures { Answers plain_typed result (rules.assigned line right tags.now (plain_typed target) (plain_typed e)) }
{
    if is_record(&target.ty) {
        record_assigned(line, tags, target, &e)
    } else {
        let e = e.wanted_value(right, tags)?;
        scalar_assigned(line, target, &e)
    }
}

/// Whether an operator with `=` moves a pointer.
fn moves(op: AssignOp) -> bool
    ensures { result ≡ rules.moves op }
{
    matches!(op, AssignOp::Add | AssignOp::Subtract)
}

/// An operator with `=` on what a place holds (C99 6.5.16.2).
pub fn changed(
    line: Line,
    op: AssignOp,
    tags: &Tags,
    target: Typed,
    e: &Typed,
) -> Result<Typed, TypeError>
    ensures { Answers plain_typed result (rules.changed line op tags.now (plain_typed target) (plain_typed e.now)) }
{
    if !is_written(&target) {
        return refused(TypeKind::NotLvalue, line);
    }
    match (operand_of(&target.ty), operand_of(&e.ty)) {
        (Operand::Number(_), Operand::Number(_)) => Ok(Typed::value(target.ty)),
        (Operand::PointerTo(to), Operand::Number(_)) => {
            if moves(op) {
                let bar = immovable(tags, to);
                value_unless(bar, line, target.ty)
            } else {
                refused(TypeKind::Operands, line)
            }
        }
        (_, Operand::PointerTo(_)) | (Operand::Neither, _) | (_, Operand::Neither) => {
            refused(TypeKind::Operands, line)
        }
    }
}

/// `++` and `--`, which are as `+= 1` (C99 6.5.2.4, 6.5.3.1).
pub fn stepped(line: Line, tags: &Tags, target: Typed) -> Result<Typed, TypeError>
    ensures { Answers plain_typed result (rules.stepped line tags.now (plain_typed target)) }
{
    changed(line, AssignOp::Add, tags, target, &Typed::int())
}

/// An operand that is read and written: what it holds must be a value (C99 6.3.2.1).
pub fn held_place(line: Line, tags: &Tags, e: Typed) -> Result<Typed, TypeError>
    ensures { Answers plain_typed result (rules.held_place line tags.now (plain_typed e)) }
{
    if e.has_no_value() {
        return refused(TypeKind::Operands, line);
    }
    if !e.is_place {
        return Ok(e);
    }
    match e.ty {
        CType::Void => refused(TypeKind::Incomplete, line),
        CType::Function(_) => refused(TypeKind::Operands, line),
        CType::Struct(_) | CType::Union(_) => {
            if has_no_size(tags, &e.ty) {
                refused(TypeKind::Incomplete, line)
            } else {
                refused(TypeKind::Operands, line)
            }
        }
        CType::Int(_) | CType::Pointer(_) | CType::Array(_, _) => Ok(e),
    }
}

/// The right side of a comma (C99 6.5.17).
pub fn behind_comma(e: Typed) -> Typed
    ensures { plain_typed result ≡ rules.behind_comma (plain_typed e) }
{
    Typed::value(e.ty)
}
