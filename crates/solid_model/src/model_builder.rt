// A model in the making.
ghost use Rattle.std.specs.Prelude.{◌≡◌, ◌≢◌, ◌<◌, [], ◌∷◌, ◌++◌, length, None, Some, IfErr, IfSome, MatchOption, OnErr, OnOk};
ghost use Rattle.solid_model.specs.Clauses.{place_of, AreClauses, FitsAt};
ghost use Rattle.solid_model.specs.Names.{IsName};
ghost use Rattle.solid_model.specs.Pushing.{push_fault};

use crate::table::Table;
use crate::{ClauseRef, Model, PushFault};
use fixed_ops::{Fx, Op, raw_range};
use std::alloc::Global;

/// The clauses of a model so far: at most 65,535 of distinct names, each of whose operands stands
/// before it. There may be none.
#[derive(Debug, Drop)]
pub struct ModelBuilder {
    table: Table,
}

impl std::marker::Model for ModelBuilder {
    ghost use Rattle.std.specs.Prelude.{List};
    ghost use Rattle.solid_model.specs.declared.clause.Clause.{Clause};
    ghost use Rattle.solid_model.specs.Clauses.{AreClauses};
    ghost use Rattle.solid_model.specs.Tables.{clauses_in};

    ghost Value = { List Clause };

    ghost view = { λ b. clauses_in b.table };

    ghost invariant = { λ b. AreClauses (clauses_in b.table) };
}

impl ModelBuilder {
    /// No clauses yet.
    pub fn new(alloc: Global) -> ModelBuilder
        ensures { result ≡ [] }
    {
        ModelBuilder {
            table: Table::new(alloc),
        }
    }

    /// No clauses yet, and room for so many, where memory is not refused.
    pub fn with_room(alloc: Global, clauses: usize) -> ModelBuilder
        ensures { result ≡ [] }
    {
        let mut table = Table::new(alloc);
        table.make_room(clauses);
        ModelBuilder { table }
    }

    /// How many clauses there are.
    #[inline]
    pub fn len(&self) -> u32
        ensures len { result ≡ length self.now }
        ensures clauses { AreClauses self.now }
    {
        self.table.len() as u32
    }

    /// The place of the clause of this name, or `None` where no clause has it.
    #[inline]
    pub fn position(&self, name: &[u8]) -> Option<u32>
        ensures place { result ≡ place_of self.now name.now }
        ensures within { IfSome result (λ at. at < length self.now) }
    {
        self.table.position(name)
    }

    /// Puts a clause last, with the places of its operands: those that its operation lacks are 0,
    /// and its number is 0 where it is no constant. The name is copied. After an `Err` the clauses
    /// are as they were.
    ///
    /// The first of these that holds is answered. `DoubleName`: the name stands already. `Full`:
    /// there are 65,535 clauses. `NoMemory`: memory was refused, and none of these holds.
    pub fn push(&mut self, name: &[u8], op: Op, a: u32, b: u32, value: Fx) -> Result<(), PushFault>
        requires name { IsName name.now }
        requires fits { FitsAt (length self.old) op a b value }
        ensures free { OnOk result (push_fault self.old name.now ≡ None) }
        ensures ok { OnOk result (self.new ≡ self.old
            ++ record { name = name.now; op = op; a = a; b = b; value = value } ∷ []) }
        ensures fault { IfErr result (λ fault. fault ≢ PushFault.NoMemory
            → push_fault self.old name.now ≡ Some fault) }
        ensures no_memory { IfErr result (λ fault. fault ≡ PushFault.NoMemory
            → push_fault self.old name.now ≡ None) }
        ensures err { OnErr result (self.new ≡ self.old) }
    {
        raw_range(value);
        self.table.push(&ClauseRef {
            name,
            op,
            a,
            b,
            value,
        })
    }

    /// The model of these clauses, or `None` exactly where there are none.
    pub fn finish(self) -> Option<Model>
        ensures { MatchOption result (self ≡ []) (λ model. (model ≡ self) × (self ≢ [])) }
    {
        if self.table.len() == 0 {
            None
        } else {
            Some(Model::of(self.table))
        }
    }
}
