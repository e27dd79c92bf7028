// The zeros that null rows are copied from.
ghost use Rattle.std.specs.Prelude.{◌≡◌, ◌≤◌, replicate};
ghost use Rattle.blocks.specs.declared.zeros.TheConstants.{ZEROS};

// How many they are: an array, for there is no heap. They are made by a few stores on every core; more would be a call of `memset` on some.
pub const ZEROS: usize = 32;

// So many zeros.
#[derive(Clone, Copy)]
pub struct Zeros<'a> {
    pub bytes: &'a [u8],
    ghost are_zeros: { bytes.now ≡ replicate ZEROS 0 },
}

impl<'a> Zeros<'a> {
    // The first m of them.
    pub fn first(self, m: usize) -> &'a [u8]
        requires { m ≤ ZEROS }
        ensures { result.now ≡ replicate m 0 }
    {
        &self.bytes[..m]
    }
}
