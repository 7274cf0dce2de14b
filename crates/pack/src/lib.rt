// Packed fields, most significant bit first. A field of up to 16 bits lies within three bytes, and is read and written there at once.
#![tactic(auto)]

ghost use Rattle.std.specs.Prelude.{◌≡◌, ◌+◌, ◌*◌, ◌-◌, ◌<◌, ◌/◌, ◌^◌, get_or, set};
ghost use Rattle.pack.specs.Bits.{bits, run, field_at, overwrite};
ghost use Rattle.pack.specs.Bytes.{window_at, patched};
ghost use Rattle.pack.specs.Asked.{Field, Patch, Fill};

// 2 to the k.
fn power(k: usize) -> u64
    requires { k < 64 }
    ensures { (result ≡ 2 ^ k) × (0 < result) }
{
    1u64 << k
}

// Byte k of s; past the end 0.
fn byte(s: &[u8], k: usize) -> u64
    ensures { (result ≡ get_or s.now k 0) × (result < 256) }
{
    if s.len() <= k {
        return 0;
    }
    s[k] as u64
}

// The number in three bytes of s, of which the first has bit i; past the end a byte is 0.
fn window(s: &[u8], i: usize) -> u64
    ensures { (result ≡ window_at s.now (i / 8)) × (result < 2 ^ 24) }
{
    let q = i / 8;
    byte(s, q) * 65536 + byte(s, q + 1) * 256 + byte(s, q + 2)
}

// The number in the width bits of s that start at bit i.
pub fn field(s: &[u8], i: usize, width: usize) -> u64
    requires { Field s.now i width }
    ensures { result ≡ field_at s.now i width }
{
    (window(s, i) >> (24 - i % 8 - width)) % power(width)
}

// x with the width bits above its k lowest set to those of v.
fn patch(x: u64, k: usize, width: usize, v: u64) -> u64
    requires { Patch x k width }
    ensures { (result ≡ patched x k width v) × (result < 2 ^ 24) }
{
    let low = power(k);
    let size = power(width);
    ((x >> k) / size * size + v % size) * low + x % low
}

// Sets byte k of s to b; past the end nothing.
fn set_byte(s: &mut [u8], k: usize, b: u64)
    requires { b < 256 }
    ensures { s.new ≡ set s.old k b }
{
    if s.len() <= k {
        return;
    }
    s[k] = b as u8;
}

// Sets the width bits of s from bit i on to those of v.
pub fn put(s: &mut [u8], i: usize, width: usize, v: u64)
    requires { Field s.old i width }
    ensures { run 8 s.new ≡ overwrite (run 8 s.old) i (bits width v) }
{
    let q = i / 8;
    let x = patch(window(s, i), 24 - i % 8 - width, width, v);
    set_byte(s, q, x / 65536);
    set_byte(s, q + 1, x / 256 % 256);
    set_byte(s, q + 2, x % 256);
}

// Fills the last byte of the first n bits with zeros.
pub fn put_fill(s: &mut [u8], n: usize)
    requires { Fill s.old n }
    ensures { run 8 s.new ≡ overwrite (run 8 s.old) n (bits ((n + 7) / 8 * 8 - n) 0) }
{
    put(s, n, (n + 7) / 8 * 8 - n, 0);
}
