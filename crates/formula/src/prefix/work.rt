// What is done with a prefix.
ghost use Rattle.std.specs.Prelude.{◌≡◌, ◌<◌, [], ◌∷◌, ◌++◌, length};
ghost use Rattle.formula.specs.Views.{bindings_of};
ghost use Rattle.formula.specs.Positions.{position};

use crate::prefix::{Binding, Prefix};
use arrays::FixedList;
use qbf::Quantifier;

impl Prefix {
    pub fn new() -> Prefix
        ensures { bindings_of result ≡ [] }
    {
        let unused = Binding {
            variable: 0,
            quantifier: Quantifier::Existential,
        };
        Prefix {
            bindings: FixedList::new(unused),
        }
    }

    // One variable more, innermost.
    pub fn push(&mut self, binding: Binding)
        requires { length (bindings_of self.old) < 256 }
        ensures { bindings_of self.new ≡ bindings_of self.old ++ binding ∷ [] }
    {
        self.bindings.push(binding);
    }

    pub fn bindings(&self) -> &[Binding]
        ensures { result.now ≡ bindings_of self.now }
    {
        self.bindings.as_slice()
    }

    // Where a variable is bound, counted from 0.
    pub fn position(&self, variable: u16) -> Option<usize>
        ensures { result ≡ position variable (bindings_of self.now) }
    {
        self.bindings()
            .iter()
            .position(|binding| binding.variable == variable)
    }
}
