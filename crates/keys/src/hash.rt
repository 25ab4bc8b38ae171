// The hash of a key.
ghost use Rattle.std.specs.Prelude.{◌≡◌, ◌+◌, ◌*◌, ◌%◌, ◌^◌};
ghost use Rattle.keys.specs.Hash.{hash_of};

// What a hash is after one byte more: 33 times itself plus the byte, wrapping at 32 bits.
fn step(h: u32, c: u8) -> u32
    ensures { result ≡ (33 * h + c) % 2 ^ 32 }
{
    std::num::wrapping_add_u32(h << 5, std::num::wrapping_add_u32(h, c as u32))
}

// The hash of a key: from 5,381 on, a step for each byte.
pub fn hash(key: &[u8]) -> u32
    ensures { result ≡ hash_of key.now }
{
    let mut h = 5381;
    for c in key {
        h = step(h, *c);
    }
    h
}
