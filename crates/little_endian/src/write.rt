// Numbers put into a lent buffer.
ghost use Rattle.std.specs.Prelude.{◌≡◌, ◌+◌, ◌*◌, ◌≤◌, length};
ghost use Rattle.arithmetic.specs.Table.{at, tab, written};
ghost use Rattle.little_endian.specs.LittleEndian.{byte_of, fields, signed};
ghost use Rattle.little_endian.specs.Steps.Buffer.{placed};

// The 32 bits of z.
pub fn bits_of(z: i32) -> u32
    ensures { result ≡ signed z }
{
    z.cast_unsigned()
}

// The lowest N bytes of x, from place p on.
pub fn put<const N: usize>(p: usize, x: u64, out: &mut [u8])
    requires { (N ≤ 8) × (p + N ≤ length out.old) }
    ensures { out.new ≡ placed p (tab N (byte_of x)) out.old }
{
    out[p..p + N].copy_from_slice(&x.to_le_bytes()[..N]);
}

// N bytes of each of the first n numbers.
pub fn put_numbers<const N: usize>(n: usize, numbers: &[u32], out: &mut [u8])
    requires { (N ≤ 8) × (n ≤ length numbers.now) × (N * n ≤ length out.old) }
    ensures { out.new ≡ written 0 (fields N n (at numbers.now)) out.old }
{
    for i in 0..n {
        put::<N>(N * i, numbers[i] as u64, out);
    }
}
