// Theorems about the delivered memos.
ghost use Rattle.memos.specs.Laws.{SlottedRetains, KeepingCounts, OneCount};

// A note always leaves its pair in the slotted memo.
pub fn slotted_retains_stands()
    ensures { SlottedRetains }
{}

// The keeping memo has its pairs once each, and at most 1,024.
pub fn keeping_counts_stands()
    ensures { KeepingCounts }
{}

// Two counts of the pairs that a memo holds agree.
pub fn one_count_stands()
    ensures { OneCount }
{}
