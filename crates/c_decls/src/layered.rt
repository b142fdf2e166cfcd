//! Types that grow by layers.

ghost use Rattle.std.specs.Prelude.{◌≡◌, IfOk};
ghost use Rattle.c_types.specs.Types.{plain, Array};
ghost use Rattle.c_types.specs.TagTable.{TagTable};
ghost use Rattle.c_decls.specs.Layered.{IsSoOften};

use c_types::CType;
use hs_base::NoMemory;
use std::alloc::Global;
use std::marker::Model;

/// A type, with a part of it that is known to stand in it so often: each array layer that is added makes that more, so a
/// type of very many layers is measured by its part (C99 6.7.5.2).
#[derive(Drop)]
pub struct LayeredType {
    ty: CType,
    part: CType,
    count: u64,
}

impl Model for LayeredType {
    ghost use Rattle.c_types.specs.Types.{PlainType, plain};
    ghost use Rattle.c_types.specs.TagTable.{TagTable};
    ghost use Rattle.c_types.specs.Codes.{type_code};
    ghost use Rattle.c_decls.specs.Layered.{IsSoOften};

    ghost Value = { PlainType };

    ghost coded = { type_code };

    ghost view = { λ t. plain t.ty };

    ghost invariant = { λ t. (tags : TagTable) → IsSoOften tags t.count (plain t.part) (plain t.ty) };
}

impl LayeredType {
    /// A type to which no layers were added yet.
    pub fn of(ty: CType) -> LayeredType
        ensures { result ≡ plain ty }
    {
        LayeredType {
            ty,
            part: ty,
            count: 1,
        }
    }

    /// The type.
    pub fn ty(&self) -> CType
        ensures { plain result ≡ self.now }
    {
        self.ty
    }

    /// The same type once more.
    pub fn copied(&self) -> LayeredType
        ensures { result ≡ self.now }
    {
        LayeredType {
            ty: self.ty,
            part: self.part,
            count: self.count,
        }
    }

    /// A part of the type, and how often it stands in it.
    pub fn part(&self) -> (CType, u64)
        ensures { (tags : TagTable) → IsSoOften tags result.1 (plain result.0) self.now }
    {
        (self.part, self.count)
    }

    /// An array of the type. A part that stands in it more often than 64 bits count is answered by want of memory.
    pub fn array_of(self, alloc: Global, length: u32) -> Result<LayeredType, NoMemory>
        ensures { IfOk result (λ it. it ≡ Array self length) }
    {
        let LayeredType { ty, part, count } = self;
        let count = count.checked_mul(u64::from(length)).ok_or(NoMemory)?;
        let ty = CType::array_of(alloc, ty, length)?;
        Ok(LayeredType { ty, part, count })
    }
}
