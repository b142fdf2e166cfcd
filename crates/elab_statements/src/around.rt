//! What stands around a statement.

ghost use Rattle.std.specs.Prelude.{◌≡◌, IfOk};
ghost use Rattle.elaboration.specs.Statements.{around_body, below, in_loop, in_switch, in_delay};
ghost use Rattle.elab_statements.specs.PlainAround.{plain_around};

use c_types::IntType;
use hs_base::NoMemory;

/// Where `break` and `continue` lead, each with how many delay blocks of the function are open there; how many are open
/// here; the promoted type of the operand of the innermost switch; and whether a label of it may stand here.
#[derive(Clone, Copy)]
pub struct Around {
    pub breaks: Option<(u32, u32)>,
    pub continues: Option<(u32, u32)>,
    pub delays: u32,
    pub switched: Option<IntType>,
    pub labelled: bool,
}

impl Around {
    /// What stands around the body of a function.
    pub fn body() -> Around
        ensures { plain_around result ≡ around_body }
    {
        Around {
            breaks: None,
            continues: None,
            delays: 0,
            switched: None,
            labelled: false,
        }
    }

    /// Inside another statement, where no label of a switch may stand.
    pub(crate) fn below(self) -> Around
        ensures { plain_around result ≡ below (plain_around self) }
    {
        Around {
            labelled: false,
            ..self
        }
    }

    /// In a loop with labels for its end and its next round.
    pub(crate) fn in_loop(self, end: u32, next: u32) -> Around
        ensures { plain_around result ≡ in_loop end next (plain_around self) }
    {
        Around {
            breaks: Some((end, self.delays)),
            continues: Some((next, self.delays)),
            labelled: false,
            ..self
        }
    }

    /// In a switch with a label for its end, on an operand of that promoted type; its body is a block or not.
    pub(crate) fn in_switch(self, block: bool, end: u32, ty: IntType) -> Around
        ensures { plain_around result ≡ in_switch block end ty (plain_around self) }
    {
        Around {
            breaks: Some((end, self.delays)),
            switched: Some(ty),
            labelled: block,
            ..self
        }
    }

    /// In a delay block.
    pub(crate) fn in_delay(self) -> Result<Around, NoMemory>
        ensures { IfOk result (λ a. plain_around a ≡ in_delay (plain_around self)) }
    {
        let delays = self.delays.checked_add(1).ok_or(NoMemory)?;
        Ok(Around {
            delays,
            labelled: false,
            ..self
        })
    }
}
