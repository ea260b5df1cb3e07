// The lines of a formula's text.
ghost use Rattle.std.specs.Prelude.{◌≡◌, ◌*◌, ◌<◌, [], ◌∷◌, length};
ghost use Rattle.std.specs.List.{AllByRecursion, prefix_len};
ghost use Rattle.words.specs.Numbers.{written};
ghost use Rattle.grammar.specs.Grammar.{letter};
ghost use Rattle.rendering.specs.Render.{problem_line, same_quantifier, block_line, prefix_lines, clause_line, literal_of};
ghost use Rattle.writer.specs.Lines.{block_of};
ghost use Rattle.writer.specs.Puts.{Puts};

use crate::pen::Pen;
use formula::Binding;
use qbf::Quantifier;

// The letter with which a quantifier's lines begin.
fn letter(quantifier: Quantifier) -> &'static str
    ensures { result.now ≡ letter quantifier }
{
    match quantifier {
        Quantifier::Universal => "a",
        Quantifier::Existential => "e",
    }
}

impl Pen<'_> {
    // The problem line, with the numbers of variables and clauses.
    pub fn put_problem(&mut self, variables: u16, clauses: u16)
        ensures { Puts self.old (problem_line variables clauses) self.new }
    {
        self.put("p cnf ");
        self.put_number(variables);
        self.put(" ");
        self.put_number(clauses);
        self.put("\n");
    }

    // The literal of a code.
    fn put_literal(&mut self, prefix: &[Binding], code: u16)
        requires { code < 2 * length prefix.now }
        ensures { Puts self.old (written (literal_of prefix.now code)) self.new }
    {
        if code % 2 == 1 {
            self.put("-");
        }
        self.put_number(prefix[usize::from(code / 2)].variable);
    }

    // The line of a clause.
    pub fn put_clause(&mut self, prefix: &[Binding], codes: &[u16])
        requires { AllByRecursion (λ k. k < 2 * length prefix.now) codes.now }
        ensures { Puts self.old (clause_line prefix.now codes.now) self.new }
    {
        for code in codes {
            self.put_literal(prefix, *code);
            self.put(" ");
        }
        self.put("0\n");
    }

    // The line of a block: the letter of its quantifier, and its variables.
    fn put_block(&mut self, quantifier: Quantifier, block: &[Binding])
        ensures { Puts self.old (block_line (block_of quantifier block.now)) self.new }
    {
        self.put(letter(quantifier));
        self.put(" ");
        for binding in block {
            self.put_number(binding.variable);
            self.put(" ");
        }
        self.put("0\n");
    }

    // The lines of the prefix, one for each block.
    pub fn put_prefix(&mut self, prefix: &[Binding])
        ensures { Puts self.old (prefix_lines prefix.now) self.new }
    {
        let mut rest = prefix;
        while let Some(first) = rest.first() {
            let (block, behind) = rest.split_at(block_len(rest, first.quantifier));
            self.put_block(first.quantifier, block);
            rest = behind;
        }
    }
}

// How many neighbours from the front on have the quantifier.
fn block_len(bindings: &[Binding], quantifier: Quantifier) -> usize
    ensures { result ≡ prefix_len (λ b. same_quantifier quantifier b.quantifier) bindings.now }
{
    bindings
        .iter()
        .take_while(|binding| binding.quantifier == quantifier)
        .count()
}
