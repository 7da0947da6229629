// The words of a block and the message schedule (FIPS 180-4, sections 5.2.1 and 6.2.2, step 1).
ghost use Rattle.std.specs.Prelude.{◌≡◌, List, ℕ, ◌+◌, ◌<◌, ◌≤◌, ◌++◌, length, take, drop};
ghost use Rattle.sha256_block.specs.Block.{words, next_word, extended};
ghost use Rattle.sha256_block.specs.Ring.{Ring};

use crate::functions::small_sigma;
use wire::u32_at;

// The sixteen words of the block that starts at byte at of s: i is a word's place and, by fours, its byte's.
pub fn block_words(s: &[u8], at: usize) -> [u32; 16]
    requires { at + 64 ≤ length s.now }
    ensures { result ≡ words (take 64 (drop at s.now)) }
{
    let mut w = [0u32; 16];
    for i in 0..16 {
        w[i] = u32_at(s, at + 4 * i);
    }
    w
}

// The schedule's next word, from the words 2, 7, 15 and 16 places before it.
fn next_word(a: u32, b: u32, c: u32, d: u32) -> u32
    ensures { result ≡ next_word a b c d }
{
    small_sigma::<17, 19, 10>(a)
        .wrapping_add(b)
        .wrapping_add(small_sigma::<7, 18, 3>(c))
        .wrapping_add(d)
}

// The last sixteen words as a ring: the next one takes the place i of the word 16 before it.
#[inline(always)]
fn one_on(ring: [u32; 16], i: usize) -> [u32; 16]
    requires { i < 16 }
    ensures { (x : List ℕ) → length x ≡ 16 → Ring x i ring → Ring x (i + 1) result }
{
    let mut w = ring;
    w[i] = next_word(w[(i + 14) % 16], w[(i + 9) % 16], w[(i + 1) % 16], w[i]);
    w
}

#[inline(always)]
fn four_on(ring: [u32; 16], i: usize) -> [u32; 16]
    requires { i + 4 ≤ 16 }
    ensures { (x : List ℕ) → length x ≡ 16 → Ring x i ring → Ring x (i + 4) result }
{
    let one = one_on(ring, i);
    let two = one_on(one, i + 1);
    let three = one_on(two, i + 2);
    one_on(three, i + 3)
}

// The schedule's sixteen words after the sixteen words x. By fours, since in a loop over the ring a block took 7 to 9 per cent longer.
#[inline(always)]
pub fn next_words(x: [u32; 16]) -> [u32; 16]
    ensures { extended 16 x ≡ x ++ result }
{
    let four = four_on(x, 0);
    let eight = four_on(four, 4);
    let twelve = four_on(eight, 8);
    four_on(twelve, 12)
}
