// A list and a table at concrete types. The expected items are worked out by hand.
use crate::{ByCode, FixedList};

#[test]
fn list_takes_as_many_as_fit(rt: HostRuntime) {
    let mut list: FixedList<u16, 4> = FixedList::new(9);
    assert_eq!(rt; list.len(), 0);
    list.push(5);
    list.extend_from_slice(&[6, 7, 8]);
    assert!(rt; list.is_full());
    assert_eq!(rt; list.as_slice(), [5, 6, 7, 8].as_slice());
    list.pop();
    list.set(1, 2);
    let copy = list;
    assert_eq!(rt; copy.as_slice(), [5, 2, 7].as_slice());
    list.truncate(1);
    assert_eq!(rt; list.as_slice(), [5].as_slice());
    list.clear();
    assert_eq!(rt; list.len(), 0);
    assert!(rt; !list.is_full());
}

#[test]
fn lists_are_equal_by_their_items(rt: HostRuntime) {
    let mut one: FixedList<u16, 4> = FixedList::new(0);
    let mut other: FixedList<u16, 4> = FixedList::new(9);
    one.extend_from_slice(&[5, 6]);
    other.extend_from_slice(&[5, 6, 7]);
    assert!(rt; one != other);
    other.pop();
    assert!(rt; one == other);
    other.set(1, 7);
    assert!(rt; one != other);
}

#[test]
fn table_has_a_value_for_each_code(rt: HostRuntime) {
    let mut table = ByCode::new(false);
    assert!(rt; !table.get(0) && !table.get(511));
    table.set(511, true);
    assert!(rt; table.get(511) && !table.get(510) && !table.get(0));
}
