//! One block more (RFC 7693, 3.1 and 3.2).

ghost use Rattle.std.specs.Prelude.{◌≡◌, ℕ, ◌+◌, ◌*◌, ◌<◌, ◌≤◌, IsTrue, nat_lt, length, take};
ghost use Rattle.std.specs.Int.{w64, to_le_bytes};
ghost use Rattle.std.specs.List.{flat_map, list_all};
ghost use Rattle.base_blake2.specs.Blake2b.{compress, folded, mark, mix, round, vector, word_at, words_of, xor_turned};

const IV: [u64; 8] = [
    0x6a09e667f3bcc908,
    0xbb67ae8584caa73b,
    0x3c6ef372fe94f82b,
    0xa54ff53a5f1d36f1,
    0x510e527fade682d1,
    0x9b05688c2b3e6c1f,
    0x1f83d9abfb41bd6b,
    0x5be0cd19137e2179,
];

// The order in which each round takes the words of a block.
const SIGMA: [[usize; 16]; 10] = [
    [0, 1, 2, 3, 4, 5, 6, 7, 8, 9, 10, 11, 12, 13, 14, 15],
    [14, 10, 4, 8, 9, 15, 13, 6, 1, 12, 0, 2, 11, 7, 5, 3],
    [11, 8, 12, 0, 5, 2, 15, 13, 10, 14, 3, 6, 7, 1, 9, 4],
    [7, 9, 3, 1, 13, 12, 11, 14, 2, 6, 5, 10, 4, 0, 15, 8],
    [9, 0, 5, 7, 2, 4, 10, 15, 14, 1, 11, 12, 6, 8, 3, 13],
    [2, 12, 6, 10, 0, 11, 8, 3, 4, 13, 7, 5, 15, 14, 1, 9],
    [12, 5, 1, 15, 14, 13, 4, 10, 0, 7, 6, 3, 9, 2, 8, 11],
    [13, 11, 7, 14, 12, 1, 3, 9, 5, 0, 15, 4, 8, 6, 2, 10],
    [6, 15, 14, 9, 11, 3, 0, 8, 12, 2, 13, 7, 1, 4, 10, 5],
    [10, 2, 8, 4, 7, 6, 1, 5, 15, 11, 9, 14, 3, 12, 13, 0],
];

#[inline(always)]
fn xor_turned(x: u64, y: u64, places: u32) -> u64
    ensures { result ≡ xor_turned x y places }
{
    (x ^ y).rotate_right(places)
}

#[inline(always)]
fn mix(v: &mut [u64; 16], a: usize, b: usize, c: usize, d: usize, x: u64, y: u64)
    requires a { a < 16 }
    requires b { b < 16 }
    requires c { c < 16 }
    requires d { d < 16 }
    ensures { v.new ≡ mix v.old a b c d x y }
{
    let a1 = v[a].wrapping_add(v[b]).wrapping_add(x);
    let d1 = xor_turned(v[d], a1, 32);
    let c1 = v[c].wrapping_add(d1);
    let b1 = xor_turned(v[b], c1, 24);
    let a2 = a1.wrapping_add(b1).wrapping_add(y);
    let d2 = xor_turned(d1, a2, 16);
    let c2 = c1.wrapping_add(d2);
    v[a] = a2;
    v[b] = xor_turned(b1, c2, 63);
    v[c] = c2;
    v[d] = d2;
}

// A round that takes the words of a block in this order. It is compiled once for each order, as are its calls, so no place
// is looked up when it runs.
#[inline(always)]
#[tactic(auto, using(crate::proofs::Words::below_16), unfolding(crate::specs::Blake2b::round))]
fn round(v: &mut [u64; 16], m: &[u64; 16], s: &[usize; 16])
    requires { IsTrue (list_all (λ i. nat_lt i 16) s.now) }
    ensures { v.new ≡ round v.old m.now s.now }
{
    mix(v, 0, 4, 8, 12, m[s[0]], m[s[1]]);
    mix(v, 1, 5, 9, 13, m[s[2]], m[s[3]]);
    mix(v, 2, 6, 10, 14, m[s[4]], m[s[5]]);
    mix(v, 3, 7, 11, 15, m[s[6]], m[s[7]]);
    mix(v, 0, 5, 10, 15, m[s[8]], m[s[9]]);
    mix(v, 1, 6, 11, 12, m[s[10]], m[s[11]]);
    mix(v, 2, 7, 8, 13, m[s[12]], m[s[13]]);
    mix(v, 3, 4, 9, 14, m[s[14]], m[s[15]]);
}

#[inline(always)]
fn word_at(block: &[u8], i: usize) -> u64
    requires { i + 8 ≤ length block.now }
    ensures { result ≡ word_at block.now i }
{
    u64::from_le_bytes([
        block[i],
        block[i + 1],
        block[i + 2],
        block[i + 3],
        block[i + 4],
        block[i + 5],
        block[i + 6],
        block[i + 7],
    ])
}

#[inline(always)]
#[tactic(auto, unfolding(crate::specs::Blake2b::words_of))]
fn words_of(block: &[u8]) -> [u64; 16]
    requires { length block.now ≡ 128 }
    ensures { result ≡ words_of block.now }
{
    [
        word_at(block, 0),
        word_at(block, 8),
        word_at(block, 16),
        word_at(block, 24),
        word_at(block, 32),
        word_at(block, 40),
        word_at(block, 48),
        word_at(block, 56),
        word_at(block, 64),
        word_at(block, 72),
        word_at(block, 80),
        word_at(block, 88),
        word_at(block, 96),
        word_at(block, 104),
        word_at(block, 112),
        word_at(block, 120),
    ]
}

#[inline(always)]
fn mark(last: bool) -> u64
    ensures { result ≡ mark last }
{
    if last { u64::MAX } else { 0 }
}

#[inline(always)]
fn vector(h: &[u64; 8], count: u128, last: bool) -> [u64; 16]
    ensures { result ≡ vector h.now count last }
{
    [
        h[0],
        h[1],
        h[2],
        h[3],
        h[4],
        h[5],
        h[6],
        h[7],
        IV[0],
        IV[1],
        IV[2],
        IV[3],
        IV[4] ^ (count % 0x1_0000_0000_0000_0000) as u64,
        IV[5] ^ (count >> 64) as u64,
        IV[6] ^ mark(last),
        IV[7],
    ]
}

#[inline(always)]
#[tactic(auto, unfolding(crate::specs::Blake2b::folded))]
fn folded(h: &[u64; 8], v: &[u64; 16]) -> [u64; 8]
    ensures { result ≡ folded h.now v.now }
{
    [
        h[0] ^ v[0] ^ v[8],
        h[1] ^ v[1] ^ v[9],
        h[2] ^ v[2] ^ v[10],
        h[3] ^ v[3] ^ v[11],
        h[4] ^ v[4] ^ v[12],
        h[5] ^ v[5] ^ v[13],
        h[6] ^ v[6] ^ v[14],
        h[7] ^ v[7] ^ v[15],
    ]
}

// Takes in a block, with the count of bytes up to its end.
pub(crate) fn compress(h: &mut [u64; 8], block: &[u8], count: u128, last: bool)
    requires { length block.now ≡ 128 }
    ensures { h.new ≡ compress h.old block.now count last }
{
    let m = words_of(block);
    let mut v = vector(h, count, last);
    round(&mut v, &m, &SIGMA[0]);
    round(&mut v, &m, &SIGMA[1]);
    round(&mut v, &m, &SIGMA[2]);
    round(&mut v, &m, &SIGMA[3]);
    round(&mut v, &m, &SIGMA[4]);
    round(&mut v, &m, &SIGMA[5]);
    round(&mut v, &m, &SIGMA[6]);
    round(&mut v, &m, &SIGMA[7]);
    round(&mut v, &m, &SIGMA[8]);
    round(&mut v, &m, &SIGMA[9]);
    round(&mut v, &m, &SIGMA[0]);
    round(&mut v, &m, &SIGMA[1]);
    *h = folded(h, &v);
}

// The first four words as bytes, low byte first.
pub(crate) fn first_bytes(h: &[u64; 8]) -> [u8; 32]
    ensures { result ≡ take 32 (flat_map (to_le_bytes w64) h.now) }
{
    let mut bytes = [0u8; 32];
    'words: for i in 0..4 {
        bytes[8 * i..8 * i + 8].copy_from_slice(&h[i].to_le_bytes());
    }
    bytes
}
