// Tests of the reader on texts written out by hand: what it makes of texts of the format, and which rule it tells, and where,
// of texts that are not. The expected values are worked out from the format, and the line above each says why.
//
// Accepted texts are held to the whole formula; the texts at the limits of bytes and clauses are built in code.
#![tactic(auto)]

#[cfg(test)]
mod accepted;
#[cfg(test)]
mod clauses;
#[cfg(test)]
mod counts;
#[cfg(test)]
mod head;
#[cfg(test)]
mod limits;
#[cfg(test)]
mod outcomes;
#[cfg(test)]
mod prefix;
