ghost use Rattle.std.specs.Prelude.{◌≡◌, ◌+◌, ◌^◌, ◌<◌, ◌≤◌};
ghost use Rattle.fields.specs.Field.{field, with_field};

// So many bits of a word, from a bit on.
#[derive(Clone, Copy)]
pub(crate) struct Field {
    pub(crate) shift: u32,
    pub(crate) width: u32,
    ghost inside: { shift + width ≤ 64 },
    ghost some: { 0 < width },
    ghost narrow: { width < 64 },
}

impl Field {
    // The number there.
    #[tactic(auto, using(fields::proofs::Fields::get_word, fields::proofs::Fields::field_small))]
    pub(crate) fn get(self, word: u64) -> u64
        ensures value { result ≡ field self.width self.shift word }
        ensures small { result < 2 ^ self.width }
    {
        (word >> self.shift) & ((1 << self.width) - 1)
    }

    // The word with another number there, all other bits kept.
    #[tactic(auto, using(fields::proofs::Fields::put_word))]
    pub(crate) fn put(self, word: u64, value: u64) -> u64
        requires { value < 2 ^ self.width }
        ensures { result ≡ with_field self.width self.shift word value }
    {
        (word & !(((1 << self.width) - 1) << self.shift)) | (value << self.shift)
    }
}
