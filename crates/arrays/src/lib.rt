// Lists of at most so many items, and tables by literal code, in arrays of a fixed size: nothing is allocated, and both are
// plain data that can be copied. A list is seen as its items, a table as the value for each code.
#![tactic(auto)]

mod by_code;
mod list;

pub use by_code::ByCode;
pub use list::FixedList;

#[cfg(test)]
mod tests;
