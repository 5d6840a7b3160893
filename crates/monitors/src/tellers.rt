ghost use Rattle.std.specs.Prelude.{◌≡◌, ◌<◌, false, true, filter, length, nat_eq, slice_index_or, slice_set, replicate};

/// Which of up to 8 parts of an intersection told an entity, and how many did. Parts are counted from 0.
#[derive(Drop)]
pub struct Tellers {
    told: [bool; 8],
    count: u8,
    ghost eight: { length told ≡ 8 },
    ghost counted: { count ≡ length (filter (λ b. b) told) },
}

impl Tellers {
    /// No part told it.
    pub fn none() -> Self
        ensures { result.told ≡ replicate 8 false }
    {
        Tellers {
            told: [false; 8],
            count: 0,
        }
    }

    /// Hears that the part told it, and answers whether that is new and so many parts have told it with this.
    pub fn hear(&mut self, part: u8, parts: u8) -> bool
        requires { part < 8 }
        ensures again { slice_index_or self.old.told part false ≡ true → (result ≡ false) × (self.new ≡ self.old) }
        ensures new { slice_index_or self.old.told part false ≡ false
            → (result ≡ nat_eq self.new.count parts) × (self.new.told ≡ slice_set self.old.told part true) }
    {
        if self.told[part as usize] {
            return false;
        }
        let mut told = self.told;
        told[part as usize] = true;
        *self = Tellers {
            told,
            count: self.count + 1,
        };
        self.count == parts
    }
}
