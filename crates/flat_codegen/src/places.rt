//! Where the statements of a function stand.

ghost use Rattle.std.specs.Prelude.{◌≡◌, IfOk};
ghost use Rattle.flat_codegen.specs.Placing.{place_in, ArePlaces};

use crate::handing::code_length;
use core_tree::Stm;
use hs_base::NoMemory;
use std::alloc::Global;

/// The places of a function's points, and the one behind its last statement.
#[derive(Drop)]
pub(crate) struct Places {
    points: Vec<u32>,
    end: u32,
}

impl Places {
    /// The places of the points of a body that begins at an instruction.
    pub(crate) fn of_body(alloc: Global, first: u32, body: &[Stm]) -> Result<Places, NoMemory>
        ensures { IfOk result (ArePlaces first body.now) }
    {
        let mut points = Vec::new(alloc);
        let mut end = first;
        for stm in body {
            points.push(end)?;
            end = end.checked_add(code_length(&stm.kind)?).ok_or(NoMemory)?;
        }
        Ok(Places { points, end })
    }

    /// The place of a point; one that is no point of the function has that behind its last statement.
    pub(crate) fn place(&self, point: u32) -> u32
        ensures { result ≡ place_in self.now point }
    {
        match self.points.get(point as usize) {
            Some(place) => *place,
            None => self.end,
        }
    }
}
