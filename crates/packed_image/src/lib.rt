// Images with their sections back to back: the header, for any number of sections.
#![tactic(auto)]

ghost use Rattle.std.specs.Prelude.{◌≡◌, ◌++◌, ◌+◌, ◌*◌, ◌≤◌, ◌<◌, length};
ghost use Rattle.arithmetic.specs.Table.{at, tab, appended, written};
ghost use Rattle.little_endian.specs.LittleEndian.{byte_of};
ghost use Rattle.little_endian.specs.Steps.Buffer.{placed};
ghost use Rattle.packed_image.specs.Packed.{start as start_of, pair, header};

use little_endian::write::put;

// The offset and the length of a section, from place p on.
fn write_pair(p: usize, start: u32, long: u32, out: &mut [u8])
    requires { p + 8 ≤ length out.old }
    ensures { out.new ≡ placed p (tab 4 (byte_of start) ++ tab 4 (byte_of long)) out.old }
{
    put::<4>(p, start as u64, out);
    put::<4>(p + 4, long as u64, out);
}

// The pairs of sections of these lengths, `first` being where the first one starts.
fn write_pairs(first: u32, lengths: &[u32], out: &mut [u8])
    requires { (first ≡ 4 + 8 * length lengths.now) × (8 * length lengths.now ≤ length out.old)
        × (start_of (length lengths.now) (at lengths.now) (length lengths.now) < 4294967296) }
    ensures { out.new
        ≡ written 0 (appended (length lengths.now) (pair (length lengths.now) (at lengths.now))) out.old }
{
    let mut start = first;
    for t in 0..lengths.len() {
        write_pair(8 * t, start, lengths[t], out);
        start += lengths[t];
    }
}

// The header of an image with sections of these lengths.
pub fn write_header(n: u32, form: u32, m: u32, lengths: &[u32], out: &mut [u8])
    requires { (length lengths.now < 256) × (4 + 8 * length lengths.now ≤ length out.old)
        × (start_of (length lengths.now) (at lengths.now) (length lengths.now) < 4294967296) }
    ensures { out.new
        ≡ placed 0 (header n form m (length lengths.now) (at lengths.now)) out.old }
{
    put::<1>(0, n as u64, out);
    put::<1>(1, form as u64, out);
    put::<2>(2, m as u64, out);
    let first = 4 + 8 * lengths.len() as u32;
    write_pairs(first, lengths, &mut out[4..]);
}
