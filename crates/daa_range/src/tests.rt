use crate::{Range, pack, unpack};

const MOST: u32 = u32::MAX;

#[test]
fn a_word_has_first_above_upto(rt: HostRuntime) {
    for (first, upto, word) in [
        (0, 0, 0),
        (0, 5, 5),
        (3, 5, 0x0000_0003_0000_0005),
        (0, MOST, 0x0000_0000_ffff_ffff),
        (MOST, MOST, 0xffff_ffff_ffff_ffff),
    ] {
        assert!(rt; first <= upto);
        let range = Range { first, upto };
        assert_eq!(rt; pack(range), word, "of {first} {upto}");
        assert_eq!(rt; unpack(word), range, "at {word}");
    }
}

#[test]
fn a_word_whose_parts_are_not_in_order_is_empty(rt: HostRuntime) {
    for (word, at) in [
        (0x0000_0005_0000_0003, 5),
        (0x0000_0001_0000_0000, 1),
        (0xffff_ffff_ffff_fffe, MOST),
    ] {
        assert_eq!(rt;
            unpack(word),
            Range {
                first: at,
                upto: at
            },
            "at {word}"
        );
    }
}

#[test]
fn the_upper_half_is_cut_toward_zero(rt: HostRuntime) {
    for (first, middle, upto) in [
        (0, 3, 5),
        (0, 2, 4),
        (7, 8, 8),
        (7, 7, 7),
        (0, 0x8000_0000, MOST),
    ] {
        assert!(rt; first <= middle && middle <= upto);
        let range = Range { first, upto };
        assert_eq!(rt; range.lower_half(), Range::new(first, middle));
        assert_eq!(rt; range.upper_half(), Range::new(middle, upto));
    }
}

#[test]
fn a_range_is_its_first_unit_and_the_rest(rt: HostRuntime) {
    let range = Range { first: 3, upto: 6 };
    assert_eq!(rt; range.len(), 3);
    assert!(rt; !range.is_empty() && Range { first: 6, upto: 6 }.is_empty());
    assert_eq!(rt; range.first_unit(), Range { first: 3, upto: 4 });
    assert_eq!(rt; range.rest(), Range { first: 4, upto: 6 });
}

fn may_be_sent<T: Send>() {}

// The check refuses a type that may not be sent between threads.
#[test]
fn values_may_be_sent() {
    may_be_sent::<Range>();
}
