// Numbers and their bytes, low byte first. The bytes of a number are `to_le_bytes` of the library.
ghost use Rattle.std.specs.Prelude.{◌≡◌, ◌≤◌, length};
ghost use Rattle.model.specs.File.{from_bytes};

// The number of up to 8 bytes.
#[tactic(auto, using(crate::proofs::Library::number_is))]
pub fn from_bytes(bytes: &[u8]) -> u64
    requires { length bytes.now ≤ 8 }
    ensures { result ≡ from_bytes bytes.now }
{
    let mut eight = [0u8; 8];
    eight[..bytes.len()].copy_from_slice(bytes);
    u64::from_le_bytes(eight)
}
