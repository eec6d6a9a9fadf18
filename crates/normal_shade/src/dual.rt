// Dual numbers.

use fixed_ops::Fx;
use std::marker::Model;

/// A dual number: a value with its derivatives along the three axes, which say how much it rises for
/// each unit of a coordinate.
#[derive(Clone, Copy, Debug, PartialEq, Eq)]
pub struct Dual {
    /// The value.
    pub value: Fx,
    /// The slope along x.
    pub dx: Fx,
    /// The slope along y.
    pub dy: Fx,
    /// The slope along z.
    pub dz: Fx,
}

impl Model for Dual {
    ghost use Rattle.fixed_ops.specs.Slopes.{Sloped};

    ghost Value = { Sloped };

    ghost view = { λ d. record { value = d.value; dx = d.dx; dy = d.dy; dz = d.dz } };

    ghost inverse = { λ s. record { value = s.value; dx = s.dx; dy = s.dy; dz = s.dz } };
}
