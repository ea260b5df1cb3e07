// Small histories with every memo and every chooser. The expected answers are worked out by hand.
use crate::alternating::Alternating;
use crate::last::Last;
use crate::{recall_after_note, split_position};
use choosers::Chooser;
use choosers::busiest::Busiest;
use choosers::first::First;
use memos::Memo;
use memos::blank::Blank;
use memos::keeping::Keeping;
use memos::slotted::Slotted;
use qbf::Candidate;

#[test]
fn blank_holds_nothing(rt: HostRuntime) {
    let mut memo = Blank::new();
    assert_eq!(rt; memo.recall(3), None);
    assert_eq!(rt; recall_after_note(&mut memo, 3, true), None);
    memo.clear();
    assert_eq!(rt; memo.recall(3), None);
}

// 1,027 is 3 modulo 1,024, so the two share a slot; 4 has another.
#[test]
fn slotted_shares_slots(rt: HostRuntime) {
    let mut memo = Slotted::new();
    assert_eq!(rt; memo.recall(3), None);
    assert_eq!(rt; recall_after_note(&mut memo, 3, true), Some(true));
    assert_eq!(rt; memo.recall(1027), None);
    assert_eq!(rt; recall_after_note(&mut memo, 4, false), Some(false));
    assert_eq!(rt; recall_after_note(&mut memo, 1027, false), Some(false));
    assert_eq!(rt; memo.recall(3), None);
    assert_eq!(rt; memo.recall(4), Some(false));
    assert_eq!(rt; recall_after_note(&mut memo, 1027, true), Some(true));
    memo.clear();
    assert_eq!(rt; memo.recall(4), None);
    assert_eq!(rt; memo.recall(1027), None);
}

// After 2, .., 1025 there are 1,024 pairs: 5 is still replaced, and 2,000 comes too late until the memo is cleared.
#[test]
fn keeping_fills_up(rt: HostRuntime) {
    let mut memo = Keeping::new();
    assert_eq!(rt; memo.recall(2), None);
    for number in 2..1025u16 {
        memo.note(number, true);
    }
    assert_eq!(rt; memo.recall(1025), None);
    assert_eq!(rt; recall_after_note(&mut memo, 1025, true), Some(true));
    assert_eq!(rt; recall_after_note(&mut memo, 2000, true), None);
    assert_eq!(rt; recall_after_note(&mut memo, 5, false), Some(false));
    assert_eq!(rt; memo.recall(2), Some(true));
    memo.clear();
    assert_eq!(rt; memo.recall(2), None);
    assert_eq!(rt; recall_after_note(&mut memo, 2000, true), Some(true));
}

// The first and the third pair are taken, the second and the fourth forgotten; the fourth takes the third along.
#[test]
fn alternating_forgets_every_second(rt: HostRuntime) {
    let mut memo = Alternating::new();
    assert_eq!(rt; recall_after_note(&mut memo, 3, true), Some(true));
    assert_eq!(rt; recall_after_note(&mut memo, 4, true), None);
    assert_eq!(rt; memo.recall(3), Some(true));
    assert_eq!(rt; recall_after_note(&mut memo, 5, false), Some(false));
    assert_eq!(rt; memo.recall(3), None);
    assert_eq!(rt; recall_after_note(&mut memo, 5, true), None);
    memo.clear();
    assert_eq!(rt; recall_after_note(&mut memo, 6, true), Some(true));
}

// The sums are 4, 6 and 6: position 5 is the lower of the two with 6.
#[test]
fn choosers_pick_in_prefix_order(rt: HostRuntime) {
    let candidates = [
        Candidate {
            position: 2,
            positive: 3,
            negative: 1,
        },
        Candidate {
            position: 5,
            positive: 2,
            negative: 4,
        },
        Candidate {
            position: 7,
            positive: 6,
            negative: 0,
        },
    ];
    assert_eq!(rt; split_position(&First, &candidates), Some(2));
    assert_eq!(rt; split_position(&Busiest, &candidates), Some(5));
    assert_eq!(rt; split_position(&Last, &candidates), Some(7));
}

// In another order position 5 is still the lowest, and its sum 131,070, the largest that there is, beats 131,069.
#[test]
fn choosers_pick_in_any_order(rt: HostRuntime) {
    let candidates = [
        Candidate {
            position: 9,
            positive: 65535,
            negative: 65535,
        },
        Candidate {
            position: 5,
            positive: 65535,
            negative: 65535,
        },
        Candidate {
            position: 7,
            positive: 65535,
            negative: 65534,
        },
    ];
    assert_eq!(rt; split_position(&First, &candidates), Some(5));
    assert_eq!(rt; split_position(&Busiest, &candidates), Some(5));
    assert_eq!(rt; split_position(&Last, &candidates), Some(7));
}

#[test]
fn no_candidate_is_no_position(rt: HostRuntime) {
    let none: [Candidate; 0] = [];
    assert_eq!(rt; split_position(&Busiest, &none), None);
}
