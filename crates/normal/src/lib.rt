// A text in the writer's form: it is read, its clauses are made as a set in a table of its own, and the formula is written.
// The text goes to the front of the caller's buffer, of which the rest stays as it is.
// Where the text is refused, the table is too small for its clauses, or the buffer is too short, the buffer is not touched.
#![tactic(auto)]

mod fault;

ghost use Rattle.std.specs.Prelude.{ℕ, ◌≤◌, ◌≢◌, length};
ghost use Rattle.normal.specs.Normal.{Normal};

pub use fault::Unwritten;
use formula::Formula;
use loading::store_clauses;
use reader::read_into;
use table::Table;
use writer::write;

// Writes the formula of the text to the front of the buffer, and tells how many bytes it has. What is written is no longer than
// what was read, so that a buffer as long as a text may be is never too short.
pub fn normalized(text: &[u8], buffer: &mut [u8]) -> Result<usize, Unwritten>
    ensures normal { Normal text.now buffer.old buffer.new result }
    ensures enough { 60000 ≤ length buffer.old → (n : ℕ) → result ≢ Err (Unwritten.TooShort n) }
{
    // Read in place: as an answer it would be moved, with its arrays, from call to call.
    let mut formula = Formula::new();
    read_into(text, &mut formula)?;
    let mut table = Table::new();
    let number = store_clauses(&mut table, &formula.clauses)?;
    let set = table.set(number);
    let len = write(set, formula.variables, &formula.prefix, buffer)?;
    Ok(len)
}
