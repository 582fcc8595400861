use seed_draws::{draw, mix, signed};

// A draw and a bound, and the signed number within it.
const SIGNED: [(u64, u32, i64); 5] = [(0, 2, -2), (4, 2, 2), (5, 2, -2), (7, 2, 0), (9, 0, 0)];

#[test]
fn published_values(rt: HostRuntime) {
    assert!(rt; mix(0) == 0xe220_a839_7b1d_cdaf);
    assert!(rt; mix(1) == 0x910a_2dec_8902_5cc1);
    assert!(rt; draw(0, 0, 0, 0) == mix(mix(mix(mix(0)))));
    for (x, bound, want) in &SIGNED {
        assert!(rt; signed(*x, *bound) == *want, "{x} within {bound}");
    }
}
