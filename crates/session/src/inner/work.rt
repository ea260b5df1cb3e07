// What is done with a core.
ghost use Rattle.std.specs.Prelude.{◌≡◌, ℕ, ◌≤◌, List, [], Some, None, Decides};
ghost use Rattle.formula.specs.Views.{reading, bindings_of};
ghost use Rattle.grammar.specs.Grammar.{Format};
ghost use Rattle.reduction.specs.Numbered.{sets_of};
ghost use Rattle.session.specs.Inner.{Stores, Decided, Writes};
ghost use Rattle.session.specs.Places.{prefix_in, begun_under};
ghost use Rattle.session.specs.Views.{core_stands};

use crate::fault::Fault;
use crate::inner::Core;
use crate::scope::{Scope, Stored};
use choosers::Chooser;
use decision::decide;
use formula::{Formula, Prefix};
use loading::store_clauses;
use memos::Memo;
use table::{Full, Table};
use writer::write;

impl Core {
    // Nothing is loaded.
    #[tactic(auto, using(crate::proofs::Cores::none_made))]
    pub fn new() -> Core
        ensures scope { result.scope ≡ None }
        ensures table { sets_of result.table ≡ [] }
    {
        Core {
            table: Table::new(),
            scope: None,
        }
    }

    // A prefix is loaded, or none, and no formula; the table is empty.
    #[tactic(auto, using(crate::proofs::Cores::none_made))]
    pub fn clear(&mut self, prefix: Option<Prefix>)
        ensures scope { self.new.scope ≡ begun_under prefix }
        ensures table { sets_of self.new.table ≡ [] }
    {
        self.scope = prefix.map(|prefix| Scope {
            prefix,
            formula: None,
        });
        self.table.clear();
    }

    // Whether this prefix is the loaded one.
    pub fn has_prefix(&self, prefix: &Prefix) -> bool
        ensures { Decides result (prefix_in self.now.scope ≡ Some (bindings_of prefix.now)) }
    {
        self.scope
            .as_ref()
            .is_some_and(|scope| scope.prefix == *prefix)
    }

    // Stores the clauses of a formula that has the loaded prefix; it is then the loaded formula, unless the table is full.
    pub fn store(&mut self, formula: &Formula) -> Result<(), Full>
        requires under { prefix_in self.old.scope ≡ Some (bindings_of formula.now.prefix) }
        requires read { (text : List ℕ) × Format text (reading formula.now) }
        ensures prefix { prefix_in self.new.scope ≡ prefix_in self.old.scope }
        ensures stores { Stores self.old (reading formula.now) self.new result }
    {
        let number = store_clauses(&mut self.table, &formula.clauses)?;
        let stored = Stored {
            variables: formula.variables,
            number,
        };
        self.scope = Some(Scope {
            prefix: formula.prefix,
            formula: Some(stored),
        });
        Ok(())
    }

    // Decides the loaded formula.
    pub fn decide<M: Memo, C: Chooser>(
        &mut self,
        memo: &mut M,
        chooser: &C,
        allowance: u32,
    ) -> Result<(bool, u32), Fault>
        requires { allowance ≤ 1000000 }
        ensures { Decided M.held M.notes (C.picks chooser.now) (core_stands self.old memo.old) allowance result (core_stands self.new memo.new) }
    {
        let Some(scope) = &self.scope else {
            return Err(Fault::NoFormula);
        };
        let Some(formula) = scope.formula else {
            return Err(Fault::NoFormula);
        };
        Ok(decide(
            &mut self.table,
            memo,
            chooser,
            &scope.prefix,
            formula.number,
            allowance,
        )?)
    }

    // Writes the loaded formula to the front of the buffer, and tells its length.
    pub fn write(&self, buffer: &mut [u8]) -> Result<usize, Fault>
        ensures { Writes self.now buffer.old buffer.new result }
    {
        let Some(scope) = &self.scope else {
            return Err(Fault::NoFormula);
        };
        let Some(formula) = scope.formula else {
            return Err(Fault::NoFormula);
        };
        Ok(write(
            self.table.set(formula.number),
            formula.variables,
            &scope.prefix,
            buffer,
        )?)
    }
}
