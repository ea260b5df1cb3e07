// The lookup of a record by its key over any lent records: the nodes of a table by code and sides, the pairs of a memo by number.
// It tells the first place that has the key, or that no record has it, and changes nothing.
#![tactic(auto)]

ghost use Rattle.std.specs.Prelude.{◌<◌, length, Decides, MatchOption};
ghost use Rattle.std.specs.List.{HoldsAt, AllWithin};

// A record with a key; what it means to have a key is the record's own.
pub trait Keyed<K> {
    ghost has: { Self → K → Type 0 };

    // Whether the record has this key.
    fn is(&self, key: &K) -> bool
        ensures { Decides result (has self.now key.now) };
}

// The place of the first record that has the key; `None` if no record has it.
pub fn find<K, R: Keyed<K>>(records: &[R], key: &K) -> Option<usize>
    ensures { MatchOption result
        (AllWithin (λ x. R.has x key.now → ⊥) records.now 0 (length records.now))
        (λ i. (i < length records.now)
        × HoldsAt (λ x. R.has x key.now) records.now i
        × AllWithin (λ x. R.has x key.now → ⊥) records.now 0 i) }
{
    records.iter().position(|record| record.is(key))
}
