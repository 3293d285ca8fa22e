// Copies: a run of bytes from one slice to another, fast for every length. `copy_run` is the one call.
//
// A run is covered by chunks of 64, 32, 16, 8, 4 or 2 bytes that may overlap, for a byte that is copied twice is the same byte. How long a
// chunk is the compiler knows, so it makes wide moves of the chunk and calls nothing.
#![tactic(auto)]

ghost use Rattle.std.specs.Prelude.{◌≡◌, ◌+◌, ◌≤◌, ◌<◌, length, drop};
ghost use Rattle.std.proofs.Math.Seq.{paste};

// Copies the n bytes of src from index `from` on to dst, from index `to` on. Every other byte of dst stays. The bounds are asked for
// here alone: within, a run is two slices of one length. That they are is a clause, and no struct holds both: no plainer, for its
// lender would learn by a ghost name alone what dst holds.
pub fn copy_run(src: &[u8], from: usize, dst: &mut [u8], to: usize, n: usize)
    requires { (from + n ≤ length src.now) × (to + n ≤ length dst.old) }
    ensures { dst.new ≡ paste dst.old to (drop from src.now) n }
{
    copy_all(&src[from..from + n], &mut dst[to..to + n]);
}

// The whole run: the longer ones are told apart first, by their length.
fn copy_all(src: &[u8], dst: &mut [u8])
    requires same { length src.now ≡ length dst.old }
    ensures { dst.new ≡ src.now }
{
    match src.len() {
        0..=15 => copy_few(src, dst),
        16..=32 => copy_ends::<16>(src, dst),
        33..=64 => copy_ends::<32>(src, dst),
        65..=128 => copy_ends::<64>(src, dst),
        _ => copy_many(src, dst),
    }
}

// Fewer than 16 bytes, down to none: told apart behind the longer runs, which meet one comparison for all of these.
fn copy_few(src: &[u8], dst: &mut [u8])
    requires same { length src.now ≡ length dst.old }
    requires few { length src.now < 16 }
    ensures { dst.new ≡ src.now }
{
    match src.len() {
        0..=1 => copy_bytes(src, dst),
        2..=3 => copy_ends::<2>(src, dst),
        4..=7 => copy_ends::<4>(src, dst),
        _ => copy_ends::<8>(src, dst),
    }
}

// At least 64 bytes: one chunk of 64 after the other, and then the last 64 bytes, of which some may be copied already.
fn copy_many(src: &[u8], dst: &mut [u8])
    requires same { length src.now ≡ length dst.old }
    requires long { 64 ≤ length src.now }
    ensures { dst.new ≡ src.now }
{
    let last = src.len() - 64;
    for chunk in 0..last / 64 + 1 {
        let at = 64 * chunk;
        copy_chunk::<64>(&src[at..at + 64], &mut dst[at..at + 64]);
    }
    copy_chunk::<64>(&src[last..], &mut dst[last..]);
}

// As many bytes as one chunk has, up to as many as two have: the first chunk of them, and the last, which may overlap it.
fn copy_ends<const CHUNK: usize>(src: &[u8], dst: &mut [u8])
    requires same { length src.now ≡ length dst.old }
    requires one { CHUNK ≤ length src.now }
    requires two { length src.now ≤ CHUNK + CHUNK }
    requires small { CHUNK ≤ 64 }
    ensures { dst.new ≡ src.now }
{
    let last = src.len() - CHUNK;
    copy_chunk::<CHUNK>(&src[..CHUNK], &mut dst[..CHUNK]);
    copy_chunk::<CHUNK>(&src[last..], &mut dst[last..]);
}

// One chunk, held between reading and writing: the compiler, which cannot see that src and dst lie apart, makes wide moves only where
// no byte is written before the last is read. The library's `copy_from_slice` calls for every chunk, which costs three times as much.
fn copy_chunk<const CHUNK: usize>(src: &[u8], dst: &mut [u8])
    requires reads { length src.now ≡ CHUNK }
    requires writes { length dst.old ≡ CHUNK }
    requires small { CHUNK ≤ 64 }
    ensures { dst.new ≡ src.now }
{
    let mut held = [0u8; CHUNK];
    copy_bytes(src, &mut held);
    copy_bytes(&held, dst);
}

// Byte by byte: what a chunk is made of.
fn copy_bytes(src: &[u8], dst: &mut [u8])
    requires same { length src.now ≡ length dst.old }
    ensures { dst.new ≡ src.now }
{
    for i in 0..src.len() {
        dst[i] = src[i];
    }
}
