//! A checksum of four lanes, at the speed of memory.
ghost use Rattle.std.specs.Prelude.{◌≡◌, ◌+◌, ◌/◌, ◌^◌, ◌≤◌, ◌++◌, List, ℕ, [], ◌∷◌, length, slice_index};
ghost use Rattle.std.specs.Int.{w64, to_le_bytes};
ghost use Rattle.dm_journal.specs.Journal.{link_bytes};
ghost use Rattle.dm_journal.specs.Lanes.{taken, word_at, lanes_after, lane_of, lane_from, lanes, stripes};

use crate::format::Link;

// The bytes that all lanes take at once.
const STRIPE: usize = 32;

/// The four lanes after a text that follows on a link.
#[tactic(auto, unfolding(crate::specs::Lanes::lanes))]
pub fn lanes(link: Link, text: &[u8]) -> [u8; 32]
    ensures { result ≡ lanes (link_bytes link) text.now }
{
    bytes_of(take_text(begin(link), text))
}

// What the lanes begin with.
fn begin(link: Link) -> [u64; 4]
    ensures { result ≡ lane_from (link_bytes link) 0 ∷ lane_from (link_bytes link) 1 ∷ lane_from (link_bytes link) 2 ∷ lane_from (link_bytes link) 3 ∷ [] }
{
    match link {
        None => [1, 2, 3, 4],
        Some(checksum) => words_of(&checksum),
    }
}

fn words_of(checksum: &[u8; 32]) -> [u64; 4]
    ensures { result ≡ word_at checksum.now 0 ∷ word_at checksum.now 8 ∷ word_at checksum.now 16 ∷ word_at checksum.now 24 ∷ [] }
{
    [
        word_at(checksum, 0),
        word_at(checksum, 8),
        word_at(checksum, 16),
        word_at(checksum, 24),
    ]
}

fn bytes_of(words: [u64; 4]) -> [u8; 32]
    ensures { result ≡ to_le_bytes w64 (slice_index words 0) ++ (to_le_bytes w64 (slice_index words 1)
        ++ (to_le_bytes w64 (slice_index words 2) ++ to_le_bytes w64 (slice_index words 3))) }
{
    let a = words[0].to_le_bytes();
    let b = words[1].to_le_bytes();
    let c = words[2].to_le_bytes();
    let d = words[3].to_le_bytes();
    [
        a[0], a[1], a[2], a[3], a[4], a[5], a[6], a[7], b[0], b[1], b[2], b[3], b[4], b[5], b[6],
        b[7], c[0], c[1], c[2], c[3], c[4], c[5], c[6], c[7], d[0], d[1], d[2], d[3], d[4], d[5],
        d[6], d[7],
    ]
}

// The lanes after a text and its length.
fn take_text(lanes: [u64; 4], text: &[u8]) -> [u64; 4]
    ensures { result ≡ lane_of (slice_index lanes 0) text.now 0 ∷ lane_of (slice_index lanes 1) text.now 1
        ∷ lane_of (slice_index lanes 2) text.now 2 ∷ lane_of (slice_index lanes 3) text.now 3 ∷ [] }
{
    let [a, b, c, d] = take_rest(take_stripes(lanes, text), text);
    let len = text.len() as u64;
    [take(a, len), take(b, len), take(c, len), take(d, len)]
}

// The lanes after the whole stripes of a text.
fn take_stripes(lanes: [u64; 4], text: &[u8]) -> [u64; 4]
    ensures { result ≡ lanes_after lanes text.now (length text.now / 32) }
{
    let [mut a, mut b, mut c, mut d] = lanes;
    let whole = text.len() / STRIPE;
    'stripes: for i in 0..whole {
        let at = STRIPE * i;
        a = take(a, word_at(text, at));
        b = take(b, word_at(text, at + 8));
        c = take(c, word_at(text, at + 16));
        d = take(d, word_at(text, at + 24));
    }
    [a, b, c, d]
}

// The lanes after the bytes behind the whole stripes, if there are any.
fn take_rest(lanes: [u64; 4], text: &[u8]) -> [u64; 4]
    ensures { (begin : List ℕ) → lanes ≡ lanes_after begin text.now (length text.now / 32) → result ≡ lanes_after begin text.now (stripes text.now) }
{
    let whole = text.len() / STRIPE;
    let at = STRIPE * whole;
    if at == text.len() {
        return lanes;
    }
    let [a, b, c, d] = lanes;
    [
        take(a, rest_at(text, at)),
        take(b, rest_at(text, at + 8)),
        take(c, rest_at(text, at + 16)),
        take(d, rest_at(text, at + 24)),
    ]
}

// A round of XXH64.
#[inline(always)]
fn take(lane: u64, word: u64) -> u64
    ensures { result ≡ taken lane word }
{
    lane.wrapping_add(word.wrapping_mul(0xC2B2_AE3D_27D4_EB4F))
        .rotate_left(31)
        .wrapping_mul(0x9E37_79B1_85EB_CA87)
}

// The word of the 8 bytes at a place.
#[inline(always)]
fn word_at(bytes: &[u8], at: usize) -> u64
    requires { at + 8 ≤ length bytes.now }
    ensures { result ≡ word_at bytes.now at }
{
    u64::from_le_bytes([
        bytes[at],
        bytes[at + 1],
        bytes[at + 2],
        bytes[at + 3],
        bytes[at + 4],
        bytes[at + 5],
        bytes[at + 6],
        bytes[at + 7],
    ])
}

// The same where the text may end before.
fn rest_at(bytes: &[u8], at: usize) -> u64
    requires { at ≤ 2 ^ 63 }
    ensures { result ≡ word_at bytes.now at }
{
    u64::from_le_bytes([
        byte_at(bytes, at),
        byte_at(bytes, at + 1),
        byte_at(bytes, at + 2),
        byte_at(bytes, at + 3),
        byte_at(bytes, at + 4),
        byte_at(bytes, at + 5),
        byte_at(bytes, at + 6),
        byte_at(bytes, at + 7),
    ])
}

fn byte_at(bytes: &[u8], at: usize) -> u8
    ensures { result ≡ slice_index bytes.now at }
{
    if at < bytes.len() { bytes[at] } else { 0 }
}
