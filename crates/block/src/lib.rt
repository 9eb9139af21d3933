// One block of a message: FIPS 180-4's functions, constants, schedule and rounds, up to the next hash value.
// Of the schedule sixteen words are kept: each is replaced by the word sixteen later as soon as its round has used it.
#![tactic(auto)]

ghost use Rattle.std.specs.Prelude.{◌≡◌, ◌+◌, ◌*◌, ◌%◌, ◌<◌, ◌≤◌, length, slice_index};
ghost use Rattle.fips.specs.Sha256 as Fips;
ghost use Rattle.block.specs.Places.{Ready, Replaced, Turned, row};

use fips::Words;

// FIPS 180-4, 4.2.2.
const K: [u32; 64] = [
    0x428a2f98, 0x71374491, 0xb5c0fbcf, 0xe9b5dba5, 0x3956c25b, 0x59f111f1, 0x923f82a4, 0xab1c5ed5,
    0xd807aa98, 0x12835b01, 0x243185be, 0x550c7dc3, 0x72be5d74, 0x80deb1fe, 0x9bdc06a7, 0xc19bf174,
    0xe49b69c1, 0xefbe4786, 0x0fc19dc6, 0x240ca1cc, 0x2de92c6f, 0x4a7484aa, 0x5cb0a9dc, 0x76f988da,
    0x983e5152, 0xa831c66d, 0xb00327c8, 0xbf597fc7, 0xc6e00bf3, 0xd5a79147, 0x06ca6351, 0x14292967,
    0x27b70a85, 0x2e1b2138, 0x4d2c6dfc, 0x53380d13, 0x650a7354, 0x766a0abb, 0x81c2c92e, 0x92722c85,
    0xa2bfe8a1, 0xa81a664b, 0xc24b8b70, 0xc76c51a3, 0xd192e819, 0xd6990624, 0xf40e3585, 0x106aa070,
    0x19a4c116, 0x1e376c08, 0x2748774c, 0x34b0bcb5, 0x391c0cb3, 0x4ed8aa4a, 0x5b9cca4f, 0x682e6ff3,
    0x748f82ee, 0x78a5636f, 0x84c87814, 0x8cc70208, 0x90befffa, 0xa4506ceb, 0xbef9a3f7, 0xc67178f2,
];

fn big0(x: u32) -> u32
    ensures { result ≡ Fips.Σ0 x }
{
    x.rotate_right(2) ^ x.rotate_right(13) ^ x.rotate_right(22)
}

fn big1(x: u32) -> u32
    ensures { result ≡ Fips.Σ1 x }
{
    x.rotate_right(6) ^ x.rotate_right(11) ^ x.rotate_right(25)
}

fn small0(x: u32) -> u32
    ensures { result ≡ Fips.σ0 x }
{
    x.rotate_right(7) ^ x.rotate_right(18) ^ (x >> 3)
}

fn small1(x: u32) -> u32
    ensures { result ≡ Fips.σ1 x }
{
    x.rotate_right(17) ^ x.rotate_right(19) ^ (x >> 10)
}

// Where x has a bit y's, else z's: by an operation less than as FIPS writes it.
fn ch(x: u32, y: u32, z: u32) -> u32
    ensures { result ≡ Fips.ch x y z }
{
    ((y ^ z) & x) ^ z
}

// The bits that two of the three have. What x and y differ in is what y and z differ in one round later, so it is worked out once.
fn maj(x: u32, y: u32, z: u32) -> u32
    ensures { result ≡ Fips.maj x y z }
{
    ((x ^ y) & (y ^ z)) ^ y
}

// The big-endian word at a place.
fn load(s: &[u8], at: usize) -> u32
    requires { at + 4 ≤ length s.now }
    ensures { result ≡ Fips.word s.now at }
{
    u32::from_be_bytes(s[at..at + 4].try_into().unwrap())
}

// A word of the schedule from the four that it goes by.
fn mix(w2: u32, w7: u32, w15: u32, w16: u32) -> u32
    ensures { result ≡ Fips.mix w2 w7 w15 w16 }
{
    // first, so that less is held at a time
    let s0 = small0(w15);
    let s1 = small1(w2);
    s1.wrapping_add(w7).wrapping_add(s0).wrapping_add(w16)
}

// Stores the first sixteen words of a block's schedule.
fn first_words(block: &[u8], w: &mut [u32; 16])
    requires { length block.now ≡ 64 }
    ensures { Ready 0 block.now w.new }
{
    for (t, word) in w.iter_mut().enumerate() {
        *word = load(block, 4 * t);
    }
}

// The word sixteen after the one at place i. Word t of the schedule stands at place t % 16, so that places 14, 9 and 1
// further on hold those that FIPS calls t - 2, t - 7 and t - 15.
fn later(w: &[u32; 16], i: usize) -> u32
    requires { i < 16 }
    ensures { result ≡ Fips.mix (slice_index w.now ((i + 14) % 16)) (slice_index w.now ((i + 9) % 16)) (slice_index w.now ((i + 1) % 16)) (slice_index w.now i) }
{
    mix(w[(i + 14) % 16], w[(i + 9) % 16], w[(i + 1) % 16], w[i])
}

// Replaces the word at place i. Those before it have been replaced, those after it have not.
fn next_word(w: &mut [u32; 16], i: usize)
    requires { i < 16 }
    ensures { Replaced i 1 w.old w.new }
{
    w[i] = later(&*w, i);
}

// One round, with its constant k and its word w.
fn round(v: Words, k: u32, w: u32) -> Words
    ensures { result ≡ Fips.round k w v }
{
    // the sum begins with what is known before v.e is
    let p = k.wrapping_add(w).wrapping_add(v.h);
    let t1 = p.wrapping_add(ch(v.e, v.f, v.g)).wrapping_add(big1(v.e));
    let t2 = big0(v.a).wrapping_add(maj(v.a, v.b, v.c));
    Words {
        a: t1.wrapping_add(t2),
        b: v.a,
        c: v.b,
        d: v.c,
        e: v.d.wrapping_add(t1),
        f: v.e,
        g: v.f,
        h: v.g,
    }
}

// Round i of sixteen with its constant, and then the word that it used is replaced.
fn turn(v: Words, k: u32, w: &mut [u32; 16], i: usize) -> Words
    requires { i < 16 }
    ensures { (result ≡ Fips.round k (slice_index w.old i) v) × Replaced i 1 w.old w.new }
{
    let n = round(v, k, w[i]);
    next_word(&mut *w, i);
    n
}

// Rounds 16 * G and on, sixteen of them, after which the sixteen words are those of the next ones. They are written one by one: in a `for` a block takes a
// fifth longer, since the constants are then read from memory.
fn sixteen_rounds<const G: usize>(mut v: Words, w: &mut [u32; 16]) -> Words
    requires { G < 4 }
    ensures { Turned 16 (row G) w.old v w.new result }
{
    v = turn(v, K[16 * G], &mut *w, 0);
    v = turn(v, K[16 * G + 1], &mut *w, 1);
    v = turn(v, K[16 * G + 2], &mut *w, 2);
    v = turn(v, K[16 * G + 3], &mut *w, 3);
    v = turn(v, K[16 * G + 4], &mut *w, 4);
    v = turn(v, K[16 * G + 5], &mut *w, 5);
    v = turn(v, K[16 * G + 6], &mut *w, 6);
    v = turn(v, K[16 * G + 7], &mut *w, 7);
    v = turn(v, K[16 * G + 8], &mut *w, 8);
    v = turn(v, K[16 * G + 9], &mut *w, 9);
    v = turn(v, K[16 * G + 10], &mut *w, 10);
    v = turn(v, K[16 * G + 11], &mut *w, 11);
    v = turn(v, K[16 * G + 12], &mut *w, 12);
    v = turn(v, K[16 * G + 13], &mut *w, 13);
    v = turn(v, K[16 * G + 14], &mut *w, 14);
    turn(v, K[16 * G + 15], &mut *w, 15)
}

fn plus(s: Words, v: Words) -> Words
    ensures { result ≡ Fips.plus s v }
{
    Words {
        a: s.a.wrapping_add(v.a),
        b: s.b.wrapping_add(v.b),
        c: s.c.wrapping_add(v.c),
        d: s.d.wrapping_add(v.d),
        e: s.e.wrapping_add(v.e),
        f: s.f.wrapping_add(v.f),
        g: s.g.wrapping_add(v.g),
        h: s.h.wrapping_add(v.h),
    }
}

// The hash value after one more block.
pub fn compress(s: Words, block: &[u8]) -> Words
    requires { length block.now ≡ 64 }
    ensures { result ≡ Fips.compress s block.now }
{
    let mut w = [0u32; 16];
    first_words(block, &mut w);
    let v1 = sixteen_rounds::<0>(s, &mut w);
    let v2 = sixteen_rounds::<1>(v1, &mut w);
    let v3 = sixteen_rounds::<2>(v2, &mut w);
    plus(s, sixteen_rounds::<3>(v3, &mut w))
}
