//! The sites of freeing.

ghost use Rattle.std.specs.Prelude.{◌≡◌, IfOk};
ghost use Rattle.object_meaning.specs.compiled.Sites.{may_free};
ghost use Rattle.flat_codegen.specs.Emitting.{with_site};

use crate::emitter::{Emitter, fit};
use core_tree::StmKind;
use flat_code::{Registers, Site};
use hs_base::NoMemory;

/// Says whether objects may be freed at a statement, or while it waits.
fn may_free(kind: &StmKind) -> bool
    ensures { result ≡ may_free kind.now }
{
    matches!(
        kind,
        StmKind::Call(..) | StmKind::Realloc(..) | StmKind::Free(_) | StmKind::Leave
    )
}

impl Emitter {
    /// Adds the site of the instruction that comes next and does what a statement does, where objects may be freed there.
    pub(crate) fn site(&mut self, kind: &StmKind, pins: Registers) -> Result<(), NoMemory>
        ensures { IfOk result (λ _. self.new.code ≡ with_site self.old.code kind.now pins) }
    {
        if may_free(kind) {
            let instr = fit(self.code.instrs.len())?;
            self.code.sites.push(Site { instr, pins })?;
        }
        Ok(())
    }
}
