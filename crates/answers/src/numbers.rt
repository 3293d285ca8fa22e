// Numbers of 64 bits in bytes, the lowest byte first, and lists of them: a buffer holds a list in slots of eight bytes.
ghost use Rattle.std.specs.Prelude.{◌≡◌, ◌+◌, ◌*◌, ◌≤◌, length};
ghost use Rattle.std.proofs.Math.Seq.{paste};
ghost use Rattle.answers.specs.Numbers.{le64, lowest, slots_in, with_slots};

// The slots of the longest buffer that a frame has.
pub const MOST_SLOTS: usize = 8192;

// The number at `at`. `u64::from_le_bytes` is no plainer: it takes an array of eight bytes, each by its index.
#[tactic(auto, unfolding(crate::specs::Numbers::le64))]
pub fn le64_at(bytes: &[u8], at: usize) -> u64
    requires { at + 8 ≤ length bytes.now }
    ensures { result ≡ le64 bytes.now at }
{
    u64::from(sheets::le32_at(bytes, at)) + 4294967296 * u64::from(sheets::le32_at(bytes, at + 4))
}

// Puts a number into the bytes at `at`.
fn put_slot(number: u64, bytes: &mut [u8], at: usize)
    requires { at + 8 ≤ length bytes.old }
    ensures { bytes.new ≡ paste bytes.old at (lowest 8 number) 8 }
{
    bytes[at..at + 8].copy_from_slice(&number.to_le_bytes());
}

// Fills the list with the first slots of a buffer.
pub fn take_slots(buffer: &[u8], list: &mut [u64])
    requires { 8 * length list.old ≤ length buffer.now }
    ensures { list.new ≡ slots_in (length list.old) buffer.now }
{
    for (i, slot) in list.iter_mut().enumerate() {
        *slot = le64_at(buffer, 8 * i);
    }
}

// Puts the list into the first slots of a buffer.
pub fn put_slots(list: &[u64], buffer: &mut [u8])
    requires { 8 * length list.now ≤ length buffer.old }
    ensures { buffer.new ≡ with_slots list.now buffer.old }
{
    for (i, slot) in list.iter().enumerate() {
        put_slot(*slot, buffer, 8 * i);
    }
}
