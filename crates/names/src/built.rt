// A name of up to 8,190 bytes held with its length. It is filled in place, by renaming and by ARM64EC mangling alone.
ghost use Rattle.std.specs.Prelude.{◌≡◌, ◌≤◌, length, replicate};
ghost use Rattle.wire.specs.Writes.{Wrote};

// The scope paper binds this form: a struct of a byte array and its length, by value.
#[derive(Clone, Copy)]
pub struct BuiltName {
    pub bytes: [u8; 8192],
    pub len: usize,
    pub ghost within: { len ≤ length bytes },
}

impl BuiltName {
    ghost use Rattle.wire.specs.Bytes.{same};
    ghost use Rattle.names.specs.Built.{name_of};

    // Its used part.
    pub fn as_slice(&self) -> &[u8]
        ensures bytes { result.now ≡ name_of self.now }
        ensures len { length result.now ≡ self.now.len }
    {
        &self.bytes[..self.len]
    }

    // Whether it is s. Only its used part is compared.
    pub fn equals(&self, s: &[u8]) -> bool
        ensures { result ≡ same (name_of self.now) s.now }
    {
        wire::same(self.as_slice(), s)
    }
}

// A fresh one: zero throughout, with nothing used.
pub fn fresh() -> BuiltName
    ensures { (result.len ≡ 0) × (result.bytes ≡ replicate 8192 0) }
{
    BuiltName {
        bytes: [0u8; 8192],
        len: 0,
    }
}

// Writes all of s at a place of a built name's bytes, and nothing else. Returns the next place.
pub fn lay(bytes: &mut [u8; 8192], at: usize, s: &[u8]) -> usize
    requires { length bytes.old ≡ 8192 }
    ensures { Wrote bytes.old at s.now bytes.new result }
{
    wire::put(bytes, at, s)
}
