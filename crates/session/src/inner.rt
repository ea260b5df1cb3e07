// What a session holds besides its memo and its chooser.
ghost use Rattle.std.specs.Prelude.{◌≡◌, Some};
ghost use Rattle.std.proofs.Props.{props};
ghost use Rattle.reduction.specs.Numbered.{quantifiers_of, Ready};
ghost use Rattle.session.specs.declared.scope.Scope.{Scope};
ghost use Rattle.session.specs.declared.scope.Stored.{Stored};

use crate::scope::Scope;
use table::Table;

mod work;

// The formula is a set of the table, over the prefix, with no more clauses than a text has.
#[derive(Clone, Copy)]
pub struct Core {
    table: Table,
    scope: Option<Scope>,
    ghost ready: { (s : Scope) (f : Stored) → scope ≡ Some s → s.formula ≡ Some f → Ready (quantifiers_of s.prefix) table f.number } by { Prim.hlevel props },
}
