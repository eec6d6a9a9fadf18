// Scratch memory for the dual numbers of a list.
ghost use Rattle.std.specs.Prelude.{◌≤◌, OnOk};

use crate::Dual;
use crate::slopes::{constant, none};
use fixed_ops::Fx;
use std::alloc::{AllocError, Global};
use std::marker::Model;

/// Rows of values and of dual numbers, and marks, one of each for every step of the longest list that was lit
/// by so far. Contracts see how many there are.
#[derive(Debug, Drop)]
pub struct Scratch {
    /// The values of a step at up to eight points.
    pub values: Vec<[Fx; 8]>,
    /// A bit for each of these points at which the last step reaches the step.
    pub marks: Vec<u8>,
    /// The dual numbers of the step at these points.
    pub duals: Vec<[Dual; 8]>,
}

impl Model for Scratch {
    ghost use Rattle.std.specs.Prelude.{◌≤◌, ℕ, length};

    ghost Value = { ℕ };

    ghost view = { λ s. length s.values.items };

    ghost invariant = { λ s. (length s.values.items ≤ length s.marks.items)
        × (length s.values.items ≤ length s.duals.items) };
}

impl Scratch {
    /// Scratch memory for no list yet.
    pub fn new(alloc: Global) -> Scratch {
        Scratch {
            values: Vec::new(alloc),
            marks: Vec::new(alloc),
            duals: Vec::new(alloc),
        }
    }

    /// Makes room for a list of `len` steps, where there is not as much yet. AllocError: there is no memory
    /// for it.
    #[inline]
    pub fn make_room(&mut self, len: usize) -> Result<(), AllocError>
        ensures { OnOk result (len ≤ self.new) }
    {
        if self.values.len() < len {
            self.grow(len)
        } else {
            Ok(())
        }
    }

    // Makes the rows and the marks of so many steps. Apart from the call that seldom needs it, which then sets
    // up no rows of its own.
    #[cold]
    #[inline(never)]
    fn grow(&mut self, len: usize) -> Result<(), AllocError>
        ensures { OnOk result (len ≤ self.new) }
    {
        self.marks.resize(len, 0)?;
        self.duals.resize(len, [constant(none()); 8])?;
        self.values.resize(len, [none(); 8])?;
        Ok(())
    }
}
