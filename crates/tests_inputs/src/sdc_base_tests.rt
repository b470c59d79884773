use sdc_base::{Kind, with_code};
use std::rt::HostRuntime;

// Whether this place with this code more is that one, where one more may be.
fn is_longer(place: &[u32], code: u32, longer: &[u32]) -> bool {
    place.len() < 8 && with_code(place, code).as_slice() == longer
}

// Places, codes, and each place with its code more.
const LONGER: [(&[u32], u32, &[u32]); 2] = [(&[], 4, &[4]), (&[3, 0], 5, &[3, 0, 5])];

#[test]
fn place_with_a_code_more(rt: HostRuntime) {
    for (place, code, longer) in &LONGER {
        assert!(rt; is_longer(place, *code, longer));
    }
}

// Kinds of cells, and whether each is primary, free or fixed.
const KINDS: [(Kind, (bool, bool, bool)); 3] = [
    (Kind::Primary, (true, false, false)),
    (Kind::Free, (false, true, false)),
    (Kind::Fixed, (false, false, true)),
];

#[test]
fn kinds_of_cells(rt: HostRuntime) {
    for (kind, wanted) in &KINDS {
        assert_eq!(rt;
            (kind.is_primary(), kind.is_free(), kind.is_fixed()),
            *wanted
        );
    }
}
