//! File-scope variables (C99 6.9.2).

ghost use Rattle.std.specs.Prelude.{◌≡◌, IfOk, is_some, slice_get};
ghost use Rattle.c_types.specs.Types.{plain};
ghost use Rattle.c_decls.specs.ScopeList.{named_in};
ghost use Rattle.elaboration.specs.Declarations.{variable_number_of, with_new_variable, with_variable, start_of, started_variable};
ghost use Rattle.elab_base.specs.Changes.{with_start, variable_number};
ghost use Rattle.elab_base.specs.Outcomes.{Becomes};
ghost use Rattle.c_decls.specs.Refusals.{Meets};

use crate::elaborator::Elaborator;
use crate::locals::copied;
use crate::names::Variable;
use crate::numbers::fit;
use c_decls::{Named, TypeError};
use c_types::CType;
use core_tree::Start;
use hs_base::{Line, NoMemory};

impl Elaborator {
    /// The number of a variable: that of its first declaration.
    pub fn variable_number(&self, name: &[u8]) -> Result<u32, NoMemory>
        ensures { IfOk result (λ index. index ≡ variable_number name.now self.now) }
    {
        match self.find_in_file(name) {
            Some(Named::Object { index, .. }) => Ok(*index),
            Some(
                Named::Register { .. }
                | Named::Function { .. }
                | Named::Typedef { .. }
                | Named::Constant { .. }
                | Named::BuiltIn { .. }
                | Named::Tag { .. },
            )
            | None => fit(self.variables.len()),
        }
    }

    /// Adds a variable, whose block is counted with it.
    fn with_new_variable(&mut self, line: Line, name: &[u8], ty: &CType) -> Result<(), TypeError>
        ensures { Becomes self.new result (with_new_variable line name.now (plain ty.now) self.old) }
    {
        let size = self.size_or_zero(ty)?;
        self.with_static(line, u64::from(size))?;
        let layout = self.mem_layout(ty)?;
        let name = copied(self.alloc, name)?;
        self.variables.push(Variable::new(name, layout))?;
        Ok(())
    }

    /// Adds a variable of that number, unless it is there.
    ///
    /// # Errors
    ///
    /// [`StaticTooLarge`](c_decls::TypeKind::StaticTooLarge) where the statics would be too large together.
    pub fn with_variable(
        &mut self,
        line: Line,
        index: u32,
        name: &[u8],
        ty: &CType,
    ) -> Result<(), TypeError>
        ensures { Becomes self.new result (with_variable line index name.now (plain ty.now) self.old) }
    {
        if (index as usize) < self.variables.len() {
            Ok(())
        } else {
            self.with_new_variable(line, name, ty)
        }
    }

    /// Whether the variable of that number has an initializer.
    pub fn is_started(&self, index: u32) -> bool
        ensures { result ≡ is_some (start_of (slice_get self.now.variables index)) }
    {
        match self.variables.get(index as usize) {
            Some(variable) => variable.is_started(),
            None => false,
        }
    }

    /// Gives the variable of that number what it holds first, if it is there.
    pub fn start_variable(&mut self, index: u32, start: Start)
        ensures { self.new ≡ with_start index start self.old }
    {
        if let Some(variable) = self.variables.get_mut(index as usize) {
            variable.set_start(start);
        }
    }
}
