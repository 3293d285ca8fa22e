// Numbers in a sheet's bytes, the lowest byte first. Two functions, since each is one `from_le_bytes` of another type and has a definition of its own.
ghost use Rattle.std.specs.Prelude.{◌≡◌, ◌+◌, ◌≤◌, ◌<◌, length};
ghost use Rattle.sheets.specs.Bytes.{le16, le32};

#[tactic(auto, unfolding(crate::specs::Bytes::le16))]
pub fn le16_at(sheet: &[u8], at: usize) -> u32
    requires { at + 2 ≤ length sheet.now }
    ensures number { result ≡ le16 sheet.now at }
    ensures short { result < 65536 }
{
    u32::from(u16::from_le_bytes([sheet[at], sheet[at + 1]]))
}

#[tactic(auto, unfolding(crate::specs::Bytes::le16, crate::specs::Bytes::le32))]
pub fn le32_at(sheet: &[u8], at: usize) -> u32
    requires { at + 4 ≤ length sheet.now }
    ensures { result ≡ le32 sheet.now at }
{
    u32::from_le_bytes([sheet[at], sheet[at + 1], sheet[at + 2], sheet[at + 3]])
}
