// What has bytes and puts them into a buffer itself.
ghost use Rattle.std.specs.Prelude.{◌≡◌, ◌+◌, ◌≤◌, ◌++◌, length, vec_len, vec_capacity};

/// A value that adds its bytes to a buffer itself, so that they are copied once.
pub trait Encode {
    ghost use Rattle.std.specs.Prelude.{ℕ, List};

    /// The bytes.
    ghost bytes: { Self → List ℕ };

    /// It may be told as bytes.
    ghost is_encodable: { Self → Type 0 };

    /// What is known of it once it is told as bytes.
    ghost is_encoded: { Self → Type 0 };

    /// Adds the bytes at the end, in the room that there is. It takes no memory.
    fn encode(&self, out: &mut Vec<u8>)
        requires encodable { is_encodable self.now }
        requires room { vec_len out.old + length (bytes self.now) ≤ vec_capacity out.old }
        ensures items { out.new.items ≡ out.old.items ++ bytes self.now }
        ensures capacity { vec_capacity out.old ≤ vec_capacity out.new }
        ensures encoded { is_encoded self.now };
}
