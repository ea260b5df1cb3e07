// The whole text of a formula.
ghost use Rattle.std.specs.Prelude.{◌*◌, ◌<◌, ◌≤◌, length, MatchResult};
ghost use Rattle.std.specs.List.{AllByRecursion};
ghost use Rattle.std.proofs.Props.{props};
ghost use Rattle.formula.specs.Views.{bindings_of};
ghost use Rattle.rendering.specs.Render.{render};
ghost use Rattle.table.specs.Sets.{clauses_of};
ghost use Rattle.writer.specs.Puts.{Puts};
ghost use Rattle.writer.specs.Written.{Put, Written, Short};

use crate::clauses::count_clauses;
use crate::pen::Pen;
use arrays::FixedList;
use formula::Prefix;
use table::Set;

// The buffer is too short for the text, which has `needed` bytes.
#[derive(Clone, Copy, PartialEq, Eq, Debug)]
pub struct TooShort {
    pub needed: usize,
}

// What is written: V, a prefix, and the clauses of a set of the table, whose variables the prefix binds.
#[derive(Clone, Copy)]
struct Content<'a> {
    set: Set<'a>,
    variables: u16,
    prefix: &'a Prefix,
    ghost bound: { AllByRecursion (AllByRecursion (λ k. k < 2 * length (bindings_of prefix.now))) (clauses_of set) } by { Prim.hlevel props },
    ghost few: { length (clauses_of set) ≤ 2048 },
}

impl Content<'_> {
    fn put_text(&self, pen: &mut Pen)
        ensures { Puts pen.old (render self.now.variables (bindings_of self.now.prefix.now) (clauses_of self.now.set)) pen.new }
    {
        let prefix = self.prefix.bindings();
        pen.put_problem(self.variables, count_clauses(self.set));
        pen.put_prefix(prefix);
        pen.put_clauses(self.set, prefix, &mut FixedList::new(0));
    }

    // Puts the text over the front of the buffer, as far as the buffer reaches, and tells its whole length.
    fn put(&self, buffer: &mut [u8]) -> usize
        ensures { Put (render self.now.variables (bindings_of self.now.prefix.now) (clauses_of self.now.set)) buffer.old buffer.new result }
    {
        let mut pen = Pen::new(buffer);
        self.put_text(&mut pen);
        pen.len()
    }
}

// Writes the formula of V variables with this prefix and the clauses of a set of the table, and tells the text's length.
pub fn write(
    set: Set,
    variables: u16,
    prefix: &Prefix,
    buffer: &mut [u8],
) -> Result<usize, TooShort>
    requires bound { AllByRecursion (AllByRecursion (λ k. k < 2 * length (bindings_of prefix.now))) (clauses_of set) }
    requires few { length (clauses_of set) ≤ 2048 }
    ensures { MatchResult result
        (Written (render variables (bindings_of prefix.now) (clauses_of set.entry)) buffer.old buffer.new)
        (λ e. Short (render variables (bindings_of prefix.now) (clauses_of set.entry)) buffer.old buffer.new e.needed) }
{
    let content = Content {
        set,
        variables,
        prefix,
    };
    // Put nowhere, the text is only measured.
    let needed = content.put(&mut []);
    if needed > buffer.len() {
        return Err(TooShort { needed });
    }
    Ok(content.put(buffer))
}
