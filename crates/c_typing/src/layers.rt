//! The types that the layers of a declarator make (C99 6.7.5).

ghost use Rattle.std.specs.Prelude.{◌≡◌};
ghost use Rattle.c_types.specs.Types.{plain};
ghost use Rattle.c_decls.specs.Refusals.{Answers};
ghost use Rattle.c_decls.specs.Typed.{plain_typed};
ghost use Rattle.c_decls.specs.TypeNames as rules;
ghost use Rattle.c_typing.specs.Layers.{plain_layer, plain_layers, layered_last, buried_line, with_length, Makes};

use crate::places::size_of_layered;
use c_decls::{
    Folded, LayeredType, TypeError, TypeKind, Typed, is_array, is_function, is_record, refused,
};
use c_types::{CType, Signature, Tags};
use hs_base::{Line, NoMemory};
use std::alloc::Global;

/// A layer of a declarator, at its line.
#[derive(Drop)]
pub enum Layer {
    PointerTo(Line),
    /// An array, of a length that may be left out.
    ArrayOf(Line, Option<u128>),
    FunctionOf(Line, Vec<CType>),
}

/// The length of an array: a constant of at least 1 (C99 6.7.5.2).
pub fn array_length(line: Line, e: &Typed) -> Result<u128, TypeError>
    ensures { Answers (λ n. n) result (rules.array_length line (plain_typed e.now)) }
{
    match (&e.ty, e.folded) {
        (CType::Int(_), Folded::Is(n)) if n > 0 => Ok(n as u128),
        _ => refused(TypeKind::NotConstant, line),
    }
}

/// The greatest size of a type, in bytes.
const LIMIT: u128 = 268_435_456;

/// An array of elements of this size, if they have one (C99 6.7.5.2).
fn array_of(
    alloc: Global,
    line: Line,
    element: LayeredType,
    size: Option<u64>,
    length: Option<u128>,
) -> Result<LayeredType, TypeError>
    ensures { Makes result (rules.array_of line element size length) }
{
    let (Some(size), Some(length)) = (size, length) else {
        return refused(TypeKind::Incomplete, line);
    };
    match length.checked_mul(u128::from(size)) {
        Some(bytes) if bytes <= LIMIT => {
            let length = u32::try_from(length).map_err(|_| NoMemory)?;
            Ok(element.array_of(alloc, length)?)
        }
        _ => refused(TypeKind::TypeTooLarge, line),
    }
}

/// A type with one layer more (C99 6.7.5.1 to 6.7.5.3).
fn layered(
    alloc: Global,
    tags: &Tags,
    layer: Layer,
    inner: LayeredType,
) -> Result<LayeredType, TypeError>
    ensures { Makes result (rules.layered tags.now (plain_layer layer) inner) }
{
    let ty = inner.ty();
    match layer {
        Layer::PointerTo(line) => {
            if is_function(&ty) {
                return refused(TypeKind::LeftOut, line);
            }
            Ok(LayeredType::of(CType::pointer_to(alloc, ty)?))
        }
        Layer::ArrayOf(line, length) => {
            if is_function(&ty) {
                return refused(TypeKind::LeftOut, line);
            }
            let size = size_of_layered(tags, &inner)?;
            array_of(alloc, line, inner, size, length)
        }
        Layer::FunctionOf(line, params) => {
            if is_array(&ty) || is_function(&ty) || is_record(&ty) {
                return refused(TypeKind::LeftOut, line);
            }
            let signature = Signature { result: ty, params };
            Ok(LayeredType::of(CType::function_of(alloc, signature)?))
        }
    }
}

/// Where a function layer stands that has another layer behind it.
fn buried_line(layer: &Layer, is_last: bool) -> Option<Line>
    ensures { result ≡ buried_line (plain_layer layer.now) is_last }
{
    match layer {
        Layer::FunctionOf(line, _) if !is_last => Some(*line),
        _ => None,
    }
}

/// A type with one layer more, which is the last one or not: a function layer stands next to the name alone.
fn layered_before(
    alloc: Global,
    tags: &Tags,
    layer: Layer,
    is_last: bool,
    inner: LayeredType,
) -> Result<LayeredType, TypeError>
    ensures { Makes result (layered_last tags.now (plain_layer layer) is_last inner) }
{
    let buried = buried_line(&layer, is_last);
    let ty = layered(alloc, tags, layer, inner)?;
    match buried {
        Some(line) => refused(TypeKind::LeftOut, line),
        None => Ok(ty),
    }
}

/// A type with layers, of which the last one stands next to the specs.
pub fn with_layers(
    alloc: Global,
    tags: &Tags,
    layers: Vec<Layer>,
    base: LayeredType,
) -> Result<LayeredType, TypeError>
    ensures { Makes result (rules.with_layers tags.now (plain_layers layers.items) base) }
{
    let mut left = layers;
    let mut ty = base;
    while let Some(layer) = left.pop() {
        ty = layered_before(alloc, tags, layer, left.is_empty(), ty)?;
    }
    Ok(ty)
}

/// The layer next to the name of a parameter: an array needs no length there.
fn with_length(layer: Layer, is_last: bool) -> Layer
    ensures { plain_layer result ≡ with_length (plain_layer layer) is_last }
{
    match layer {
        Layer::ArrayOf(line, None) if is_last => Layer::ArrayOf(line, Some(1)),
        other => other,
    }
}

/// The same for the layer of a parameter.
fn param_layered(
    alloc: Global,
    tags: &Tags,
    layer: Layer,
    is_last: bool,
    inner: LayeredType,
) -> Result<LayeredType, TypeError>
    ensures { Makes result (layered_last tags.now (with_length (plain_layer layer) is_last) is_last inner) }
{
    layered_before(alloc, tags, with_length(layer, is_last), is_last, inner)
}

/// The same for a parameter, whose array next to the name needs no length (C99 6.7.5.3).
pub fn with_param_layers(
    alloc: Global,
    tags: &Tags,
    layers: Vec<Layer>,
    base: LayeredType,
) -> Result<LayeredType, TypeError>
    ensures { Makes result (rules.with_param_layers tags.now (plain_layers layers.items) base) }
{
    let mut left = layers;
    let mut ty = base;
    while let Some(layer) = left.pop() {
        ty = param_layered(alloc, tags, layer, left.is_empty(), ty)?;
    }
    Ok(ty)
}

/// A parameter of array type is a pointer (C99 6.7.5.3).
pub fn adjusted(ty: CType) -> CType
    ensures { plain result ≡ rules.adjusted (plain ty) }
{
    match ty {
        CType::Array(element, _) => CType::Pointer(element),
        CType::Void => CType::Void,
        CType::Int(int) => CType::Int(int),
        CType::Pointer(target) => CType::Pointer(target),
        CType::Struct(tag) => CType::Struct(tag),
        CType::Union(tag) => CType::Union(tag),
        CType::Function(signature) => CType::Function(signature),
    }
}
