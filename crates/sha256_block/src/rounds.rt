// The rounds, and one block whole (FIPS 180-4, section 6.2.2, steps 2 to 4).
ghost use Rattle.std.specs.Prelude.{◌≡◌, ◌+◌, ◌<◌, ◌≤◌, ◌++◌, length, take, drop};
ghost use Rattle.sha256_block.specs.Block.{round_of, extended, rounds, sum_of, compress_words, compress_of};
ghost use Rattle.wire.specs.Parts.{part};

use crate::constants::K;
use crate::functions::{big_sigma, ch, maj};
use crate::schedule::{block_words, next_words};

// The eight working variables, by the standard's names; and a hash value, whose words H0 to H7 are the fields a to h.
#[derive(Clone, Copy)]
pub struct Variables {
    pub a: u32,
    pub b: u32,
    pub c: u32,
    pub d: u32,
    pub e: u32,
    pub f: u32,
    pub g: u32,
    pub h: u32,
}

// The variables after one round, with its constant and its word.
fn round(v: Variables, k: u32, w: u32) -> Variables
    ensures { result ≡ round_of v k w }
{
    let t1 = v
        .h
        .wrapping_add(big_sigma::<6, 11, 25>(v.e))
        .wrapping_add(ch(v.e, v.f, v.g))
        .wrapping_add(k)
        .wrapping_add(w);
    let t2 = big_sigma::<2, 13, 22>(v.a).wrapping_add(maj(v.a, v.b, v.c));
    Variables {
        a: t1.wrapping_add(t2),
        b: v.a,
        c: v.b,
        d: v.c,
        e: v.d.wrapping_add(t1),
        f: v.e,
        g: v.f,
        h: v.g,
    }
}

// The variables after the four rounds with the constants and words from place i on.
#[inline(always)]
fn four_rounds(v: Variables, k: &[u32; 16], w: &[u32; 16], i: usize) -> Variables
    requires { i + 4 ≤ 16 }
    ensures { result ≡ rounds (part k.now i 4) (part w.now i 4) v }
{
    let one = round(v, k[i], w[i]);
    let two = round(one, k[i + 1], w[i + 1]);
    let three = round(two, k[i + 2], w[i + 2]);
    round(three, k[i + 3], w[i + 3])
}

// The variables after sixteen rounds, with their constants and their words. By fours, since in a loop over both arrays a block took 22 per cent longer.
#[inline(always)]
fn sixteen_rounds(v: Variables, k: &[u32; 16], w: &[u32; 16]) -> Variables
    ensures { result ≡ rounds k.now w.now v }
{
    let four = four_rounds(v, k, w, 0);
    let eight = four_rounds(four, k, w, 4);
    let twelve = four_rounds(eight, k, w, 8);
    four_rounds(twelve, k, w, 12)
}

// The words of the quarter after quarter i of a block; behind the last no words are wanted.
#[inline(always)]
fn words_after(w: [u32; 16], i: usize) -> [u32; 16]
    ensures { i < 3 → extended 16 w ≡ w ++ result }
{
    if i < 3 { next_words(w) } else { w }
}

// The sums, word by word.
#[tactic(auto, unfolding(crate::specs::Block::sum_of))]
fn sum(x: Variables, y: Variables) -> Variables
    ensures { result ≡ sum_of x y }
{
    Variables {
        a: x.a.wrapping_add(y.a),
        b: x.b.wrapping_add(y.b),
        c: x.c.wrapping_add(y.c),
        d: x.d.wrapping_add(y.d),
        e: x.e.wrapping_add(y.e),
        f: x.f.wrapping_add(y.f),
        g: x.g.wrapping_add(y.g),
        h: x.h.wrapping_add(y.h),
    }
}

// The hash value h after a block of these words. Only the product's own parts call it.
pub fn compress_words(h: Variables, block: [u32; 16]) -> Variables
    ensures { result ≡ compress_words h block }
{
    let mut v = h;
    let mut w = block;
    for (i, k) in K.iter().enumerate() {
        v = sixteen_rounds(v, k, &w);
        w = words_after(w, i);
    }
    sum(h, v)
}

// The hash value h after the block of s that starts at byte at. Only the product's own parts call it.
#[tactic(auto, unfolding(crate::specs::Block::compress_of))]
pub fn compress(h: Variables, s: &[u8], at: usize) -> Variables
    requires { at + 64 ≤ length s.now }
    ensures { result ≡ compress_of h (take 64 (drop at s.now)) }
{
    compress_words(h, block_words(s, at))
}
