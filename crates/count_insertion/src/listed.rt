//! The pins of a function, by point.

ghost use Rattle.std.specs.Prelude.{◌≡◌, ◌++◌, [], ◌<◌, All, IfOk, map};
ghost use Rattle.object_meaning.specs.declared.pins.Pin.{Pin};
ghost use Rattle.count_insertion.specs.Inserted.{pin_of};
ghost use Rattle.count_insertion.specs.Points.{TakesFirst};

use flat_code::Registers;
use hs_base::NoMemory;
use std::alloc::Global;
use std::marker::Model;

/// The registers that count at a point.
#[derive(Debug, Drop)]
struct PointPins {
    point: u32,
    registers: Registers,
}

/// The pins of a function, in the order of their points. Those of a point are kept as one list of registers, so neighbours that
/// follow each other take no memory of their own.
#[derive(Debug, Drop)]
pub struct FuncPins {
    points: Vec<PointPins>,
}

impl Model for FuncPins {
    ghost use Rattle.std.specs.Prelude.{List};
    ghost use Rattle.object_meaning.specs.declared.pins.Pin.{Pin};
    ghost use Rattle.count_insertion.specs.Points.{AreOfPoints, pins_listed};

    ghost Value = { List Pin };

    ghost view = { λ pins. pins_listed pins.points.items };

    ghost invariant = { λ pins. AreOfPoints pins.points.items };
}

impl FuncPins {
    /// No pins.
    pub(crate) fn new(alloc: Global) -> FuncPins
        ensures { result ≡ [] }
    {
        FuncPins {
            points: Vec::new(alloc),
        }
    }

    /// Adds the pins of a point that is behind those of all others.
    pub(crate) fn push(&mut self, point: u32, registers: Registers) -> Result<(), NoMemory>
        requires { All (λ (pin : Pin). pin.point < point) self.old }
        ensures { IfOk result (λ _. self.new ≡ self.old ++ map (pin_of point) registers) }
    {
        if !registers.is_empty() {
            self.points.push(PointPins { point, registers })?;
        }
        Ok(())
    }

    /// All pins, to be taken point by point.
    pub fn left(&self) -> PinsLeft<'_>
        ensures { result ≡ self.now }
    {
        PinsLeft {
            points: self.points.as_slice(),
        }
    }
}

/// The pins of a function that are left, the first points having been taken.
#[derive(Drop)]
pub struct PinsLeft<'a> {
    points: &'a [PointPins],
}

impl<'a> Model for PinsLeft<'a> {
    ghost use Rattle.std.specs.Prelude.{List};
    ghost use Rattle.object_meaning.specs.declared.pins.Pin.{Pin};
    ghost use Rattle.count_insertion.specs.Points.{AreOfPoints, pins_listed};

    ghost Value = { List Pin };

    ghost view = { λ left. pins_listed left.points.now };

    ghost invariant = { λ left. AreOfPoints left.points.now };
}

impl<'a> PinsLeft<'a> {
    /// Takes the pins of a point that stand first, and gives their registers.
    ///
    /// # Errors
    ///
    /// [`NoMemory`], where there is none for them.
    pub fn take(&mut self, alloc: Global, point: u32) -> Result<Registers, NoMemory>
        ensures { IfOk result (TakesFirst point self.old self.new) }
    {
        let Some((first, others)) = self.points.split_first() else {
            return Ok(Registers::new(alloc));
        };
        if first.point != point {
            return Ok(Registers::new(alloc));
        }
        let registers = first.registers.copied(alloc)?;
        self.points = others;
        Ok(registers)
    }
}
