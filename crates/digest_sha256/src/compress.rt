// The hash value of a message's whole blocks (FIPS 180-4, 4 and 6.2.2). Words are added modulo 2^32.
ghost use Rattle.std.specs.Prelude.{◌≡◌, ◌/◌, ◌<◌, ◌≤◌, length, take, slice_index};
ghost use Rattle.digest_sha256.specs.Sha256.{Ch, Maj, Σ₀, Σ₁, σ₀, σ₁, block_word, next_word, scheduled, turned, after_turns, added_words, compressed, initial_hash, hashed};
ghost use Rattle.digest_sha256.specs.StepHelpers.{Filled, turns_from};

// Eight words: a hash value, and the working variables.
#[derive(Clone, Copy)]
pub struct Words {
    pub a: u32,
    pub b: u32,
    pub c: u32,
    pub d: u32,
    pub e: u32,
    pub f: u32,
    pub g: u32,
    pub h: u32,
}

// 4.2.2. That these are the roots of the primes is proved (proofs/Roots.antt).
const CONSTANTS: [u32; 64] = [
    0x428a_2f98,
    0x7137_4491,
    0xb5c0_fbcf,
    0xe9b5_dba5,
    0x3956_c25b,
    0x59f1_11f1,
    0x923f_82a4,
    0xab1c_5ed5,
    0xd807_aa98,
    0x1283_5b01,
    0x2431_85be,
    0x550c_7dc3,
    0x72be_5d74,
    0x80de_b1fe,
    0x9bdc_06a7,
    0xc19b_f174,
    0xe49b_69c1,
    0xefbe_4786,
    0x0fc1_9dc6,
    0x240c_a1cc,
    0x2de9_2c6f,
    0x4a74_84aa,
    0x5cb0_a9dc,
    0x76f9_88da,
    0x983e_5152,
    0xa831_c66d,
    0xb003_27c8,
    0xbf59_7fc7,
    0xc6e0_0bf3,
    0xd5a7_9147,
    0x06ca_6351,
    0x1429_2967,
    0x27b7_0a85,
    0x2e1b_2138,
    0x4d2c_6dfc,
    0x5338_0d13,
    0x650a_7354,
    0x766a_0abb,
    0x81c2_c92e,
    0x9272_2c85,
    0xa2bf_e8a1,
    0xa81a_664b,
    0xc24b_8b70,
    0xc76c_51a3,
    0xd192_e819,
    0xd699_0624,
    0xf40e_3585,
    0x106a_a070,
    0x19a4_c116,
    0x1e37_6c08,
    0x2748_774c,
    0x34b0_bcb5,
    0x391c_0cb3,
    0x4ed8_aa4a,
    0x5b9c_ca4f,
    0x682e_6ff3,
    0x748f_82ee,
    0x78a5_636f,
    0x84c8_7814,
    0x8cc7_0208,
    0x90be_fffa,
    0xa450_6ceb,
    0xbef9_a3f7,
    0xc671_78f2,
];

// The hash value before the first block (5.3.3).
pub fn initial() -> Words
    ensures { result ≡ initial_hash }
{
    Words {
        a: 0x6a09_e667,
        b: 0xbb67_ae85,
        c: 0x3c6e_f372,
        d: 0xa54f_f53a,
        e: 0x510e_527f,
        f: 0x9b05_688c,
        g: 0x1f83_d9ab,
        h: 0x5be0_cd19,
    }
}

// Ch, Maj, and the four sigmas (4.1.2).
fn choose(x: u32, y: u32, z: u32) -> u32
    ensures { result ≡ Ch x y z }
{
    (x & y) ^ (!x & z)
}

fn majority(x: u32, y: u32, z: u32) -> u32
    ensures { result ≡ Maj x y z }
{
    (x & y) ^ (x & z) ^ (y & z)
}

fn upper_sigma0(x: u32) -> u32
    ensures { result ≡ Σ₀ x }
{
    x.rotate_right(2) ^ x.rotate_right(13) ^ x.rotate_right(22)
}

fn upper_sigma1(x: u32) -> u32
    ensures { result ≡ Σ₁ x }
{
    x.rotate_right(6) ^ x.rotate_right(11) ^ x.rotate_right(25)
}

fn lower_sigma0(x: u32) -> u32
    ensures { result ≡ σ₀ x }
{
    x.rotate_right(7) ^ x.rotate_right(18) ^ (x >> 3)
}

fn lower_sigma1(x: u32) -> u32
    ensures { result ≡ σ₁ x }
{
    x.rotate_right(17) ^ x.rotate_right(19) ^ (x >> 10)
}

// Word t of a block.
fn word_at(block: &[u8], t: usize) -> u32
    requires { (t < 16) × (64 ≤ length block.now) }
    ensures { result ≡ block_word block.now t }
{
    let at = 4 * t;
    u32::from_be_bytes([block[at], block[at + 1], block[at + 2], block[at + 3]])
}

// The schedule's first sixteen words, in an array for all.
fn first_words(block: &[u8]) -> [u32; 64]
    requires { 64 ≤ length block.now }
    ensures { Filled (take 64 block.now) 16 result }
{
    let mut w = [0u32; 64];
    for t in 0..16 {
        w[t] = word_at(block, t);
    }
    w
}

// The schedule's word t, from the sixteenth on.
fn next_word(w: &[u32; 64], t: usize) -> u32
    requires { (16 ≤ t) × (t < 64) }
    ensures { result ≡ next_word w.now t }
{
    lower_sigma1(w[t - 2])
        .wrapping_add(w[t - 7])
        .wrapping_add(lower_sigma0(w[t - 15]))
        .wrapping_add(w[t - 16])
}

// The schedule of a block.
fn schedule(block: &[u8]) -> [u32; 64]
    requires { 64 ≤ length block.now }
    ensures { result ≡ scheduled (take 64 block.now) 64 }
{
    let mut w = first_words(block);
    for t in 16..64 {
        w[t] = next_word(&w, t);
    }
    w
}

// Turn t of the working variables, with the constants k and the schedule w.
fn turn(v: Words, k: &[u32; 64], w: &[u32; 64], t: usize) -> Words
    requires { t < 64 }
    ensures { result ≡ turned v (slice_index k.now t) (slice_index w.now t) }
{
    let t1 = v
        .h
        .wrapping_add(upper_sigma1(v.e))
        .wrapping_add(choose(v.e, v.f, v.g))
        .wrapping_add(k[t])
        .wrapping_add(w[t]);
    let t2 = upper_sigma0(v.a).wrapping_add(majority(v.a, v.b, v.c));
    Words {
        a: t1.wrapping_add(t2),
        b: v.a,
        c: v.b,
        d: v.c,
        e: v.d.wrapping_add(t1),
        f: v.e,
        g: v.f,
        h: v.g,
    }
}

// Eight turns from turn t on. Behind them each variable is back in its register.
fn eight_turns(v: Words, k: &[u32; 64], w: &[u32; 64], t: usize) -> Words
    requires { t < 57 }
    ensures { result ≡ turns_from k.now w.now v t 8 }
{
    let v1 = turn(v, k, w, t);
    let v2 = turn(v1, k, w, t + 1);
    let v3 = turn(v2, k, w, t + 2);
    let v4 = turn(v3, k, w, t + 3);
    let v5 = turn(v4, k, w, t + 4);
    let v6 = turn(v5, k, w, t + 5);
    let v7 = turn(v6, k, w, t + 6);
    turn(v7, k, w, t + 7)
}

// All turns.
fn turns(v: Words, w: &[u32; 64]) -> Words
    ensures { result ≡ after_turns w.now v 64 }
{
    let mut v = v;
    for eighth in 0..8 {
        v = eight_turns(v, &CONSTANTS, w, 8 * eighth);
    }
    v
}

// Word by word.
fn plus(v: Words, u: Words) -> Words
    ensures { result ≡ added_words v u }
{
    Words {
        a: u.a.wrapping_add(v.a),
        b: u.b.wrapping_add(v.b),
        c: u.c.wrapping_add(v.c),
        d: u.d.wrapping_add(v.d),
        e: u.e.wrapping_add(v.e),
        f: u.f.wrapping_add(v.f),
        g: u.g.wrapping_add(v.g),
        h: u.h.wrapping_add(v.h),
    }
}

// The hash value behind one block more: the first 64 of the bytes.
pub fn compress(v: Words, block: &[u8]) -> Words
    requires { 64 ≤ length block.now }
    ensures { result ≡ compressed v (take 64 block.now) }
{
    let w = schedule(block);
    plus(v, turns(v, &w))
}

// The hash value behind all whole blocks of the bytes.
pub fn compress_all(v: Words, bytes: &[u8]) -> Words
    ensures { result ≡ hashed v bytes.now (length bytes.now / 64) }
{
    let mut v = v;
    for i in 0..bytes.len() / 64 {
        v = compress(v, &bytes[64 * i..]);
    }
    v
}
