// Numbers of 16 bits as bytes, high byte first (document 01, "The grants file").
ghost use Rattle.std.specs.Prelude.{◌≡◌, ◌+◌, ◌<◌, ◌≤◌, length};
ghost use Rattle.std.proofs.lemmas.List.Edits.{sets};
ghost use Rattle.grants_file.specs.Bytes.{be16, be16_at};

// The number at a place.
pub fn be16_at(bytes: &[u8], at: usize) -> u16
    requires { at + 2 ≤ length bytes.now }
    ensures { result ≡ be16_at bytes.now at }
{
    u16::from_be_bytes([bytes[at], bytes[at + 1]])
}

// The number at a place, as a count.
pub fn count_at(bytes: &[u8], at: usize) -> usize
    requires { at + 2 ≤ length bytes.now }
    ensures { (result ≡ be16_at bytes.now at) × (result < 65536) }
{
    usize::from(be16_at(bytes, at))
}

// Stores a number at a place.
pub fn put_be16(bytes: &mut [u8], at: usize, n: u16)
    requires { at + 2 ≤ length bytes.old }
    ensures { bytes.new ≡ sets bytes.old at (be16 n) }
{
    bytes[at..at + 2].copy_from_slice(&n.to_be_bytes());
}
