// Numbers read from bytes, and tables of them.
ghost use Rattle.std.specs.Prelude.{◌≡◌, ◌+◌, ◌*◌, ◌≤◌, ◌<◌, length};
ghost use Rattle.arithmetic.specs.Table.{at, tab, written};
ghost use Rattle.little_endian.specs.LittleEndian.{two, four};
ghost use Rattle.little_endian.specs.Steps.Buffer.{Inside};

pub fn wide(x: u8) -> u32
    ensures { (result ≡ x) × (result < 256) }
{
    x as u32
}

// The byte at place k.
pub fn get(bytes: &[u8], k: usize) -> u32
    requires { k < length bytes.now }
    ensures { (result ≡ at bytes.now k) × (result < 256) }
{
    wide(bytes[k])
}

// The number in two bytes from place k.
#[tactic(auto, unfolding(crate::specs::LittleEndian::two))]
pub fn get_two(bytes: &[u8], k: usize) -> u32
    requires { k + 2 ≤ length bytes.now }
    ensures { (result ≡ two bytes.now k) × (result < 65536) }
{
    u16::from_le_bytes([bytes[k], bytes[k + 1]]) as u32
}

// The number in four bytes from place k.
#[tactic(auto, unfolding(crate::specs::LittleEndian::two))]
pub fn get_four(bytes: &[u8], k: usize) -> u32
    requires { k + 4 ≤ length bytes.now }
    ensures { result ≡ four bytes.now k }
{
    u32::from_le_bytes([bytes[k], bytes[k + 1], bytes[k + 2], bytes[k + 3]])
}

// Bytes from place `from` on, one in every `step`.
pub fn fill_bytes(bytes: &[u8], from: usize, step: usize, count: usize, out: &mut [u32])
    requires { (count ≤ length out.old) × Inside from step 1 count (length bytes.now) }
    ensures { out.new ≡ written 0 (tab count (λ e. at bytes.now (from + step * e))) out.old }
{
    for e in 0..count {
        out[e] = get(bytes, from + step * e);
    }
}

// Numbers of two bytes from place `from` on, one in every four bytes.
pub fn fill_twos(bytes: &[u8], from: usize, count: usize, out: &mut [u32])
    requires { (count ≤ length out.old) × Inside from 4 2 count (length bytes.now) }
    ensures { out.new ≡ written 0 (tab count (λ e. two bytes.now (from + 4 * e))) out.old }
{
    for e in 0..count {
        out[e] = get_two(bytes, from + 4 * e);
    }
}

// Numbers of four bytes from place `from` on.
pub fn fill_fours(bytes: &[u8], from: usize, count: usize, out: &mut [u64])
    requires { (count ≤ length out.old) × Inside from 4 4 count (length bytes.now) }
    ensures { out.new ≡ written 0 (tab count (λ e. four bytes.now (from + 4 * e))) out.old }
{
    for e in 0..count {
        out[e] = get_four(bytes, from + 4 * e) as u64;
    }
}
