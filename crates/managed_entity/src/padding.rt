//! Bytes in a field of an answer.
ghost use Rattle.std.specs.Prelude.{◌≡◌, ◌≤◌, length};
ghost use Rattle.managed_entity.specs.Answer.{padded};

/// Bytes, and zeros up to `N`.
pub fn padded<const N: usize>(bytes: &[u8]) -> [u8; N]
    requires { length bytes.now ≤ N }
    ensures { result ≡ padded N bytes.now }
{
    let mut values = [0; N];
    values[..bytes.len()].copy_from_slice(bytes);
    values
}
