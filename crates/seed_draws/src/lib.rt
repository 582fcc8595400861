//! Numbers drawn by a seed. Worlds and generated plants take all that they choose from here.
#![tactic(auto)]

ghost use Rattle.std.specs.Prelude.{◌≡◌, ◌<◌, ◌^◌, pos, ◌+ℤ◌, ◌≤ℤ◌};
ghost use Rattle.seed_draws.specs.Draws.{mix_of, draw_of, signed_within};

/// A number scattered over all 64 bits (the mix of SplitMix64).
pub fn mix(z: u64) -> u64
    ensures { result ≡ mix_of z }
{
    let z = z.wrapping_add(0x9E37_79B9_7F4A_7C15);
    let z = (z ^ (z >> 30)).wrapping_mul(0xBF58_476D_1CE4_E5B9);
    let z = (z ^ (z >> 27)).wrapping_mul(0x94D0_49BB_1331_11EB);
    z ^ (z >> 31)
}

/// The number of a seed at three places.
pub fn draw(seed: u64, a: u64, b: u64, c: u64) -> u64
    ensures { result ≡ draw_of seed a b c }
{
    mix(mix(mix(mix(seed).wrapping_add(a)).wrapping_add(b)).wrapping_add(c))
}

/// A number as one from `-bound` to `bound`.
pub fn signed(x: u64, bound: u32) -> i64
    ensures value { result ≡ signed_within x bound }
    ensures low { pos 0 ≤ℤ (result +ℤ pos bound) }
    ensures high { result ≤ℤ pos bound }
{
    let span = 2 * u64::from(bound) + 1;
    let shifted = x % span;
    shifted as i64 - i64::from(bound)
}
