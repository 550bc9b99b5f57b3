//! Bytes by address.

ghost use Rattle.std.specs.Prelude.{◌≡◌, ℕ, Option, IsTrue, length};
ghost use Rattle.rv_model.specs.Memory.{all_from, bytes_at};
ghost use Rattle.rv_model.specs.Data.{data_in, memory_in};

/// What holds a program's data: a byte at each address that is data, and none elsewhere.
pub trait Bytes {
    /// The byte at an address below 2^64, if it is data.
    ghost byte_at: { Self → ℕ → Option ℕ };

    /// The byte at this address, or None where it isn't data.
    fn byte(&self, address: u64) -> Option<u8>
        ensures { result ≡ byte_at self.now address };

    /// Whether each of the `count` bytes from an address on is data. An address doesn't wrap: one
    /// of 2^64 or more isn't data.
    fn is_all_data(&self, address: u64, count: u64) -> bool
        ensures { result ≡ all_from (data_in (byte_at self.now)) address count }
    {
        for distance in 0..count {
            let Some(at) = address.checked_add(distance) else {
                return false;
            };
            if self.byte(at).is_none() {
                return false;
            }
        }
        true
    }

    /// Copies the bytes from an address on, all of which are data, over those of a slice.
    fn copy_to(&self, address: u64, into: &mut [u8])
        requires { IsTrue (all_from (data_in (byte_at self.now)) address (length into.old)) }
        ensures { into.new ≡ bytes_at (memory_in (byte_at self.now)) address (length into.old) }
    {
        for i in 0..into.len() {
            into[i] = self.byte(address + i as u64).unwrap_or(0);
        }
    }
}
