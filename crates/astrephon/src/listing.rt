// Listing a sheet, for people to read.
ghost use Rattle.std.specs.Prelude.{◌≡◌};
ghost use Rattle.astrephon.specs.Says.{says, number_value};
ghost use Rattle.astrephon.specs.Texts.{listing_call};

use crate::Refusal;

// Writes the listing of a sheet to the front of `text`: its layout's lines, or the line of its refusal. It answers how many bytes these are; later bytes of
// `text` stay.
#[tactic(auto, unfolding(crate::specs::Texts::text_outcome))]
pub fn list_sheet(sheet: &[u8], text: &mut [u8]) -> Result<usize, Refusal>
    ensures says { let outcome = listing_call sheet.now text.old in
        says number_value result ≡ outcome.says }
    ensures leaves { let outcome = listing_call sheet.now text.old in
        text.new ≡ outcome.later }
{
    let mut whole = [0u8; crate::LONGEST_LISTING];
    let n = lines::put_listing(sheet, &mut whole);
    let short = text.len() < n;
    if short {
        return Err(Refusal::Buffer);
    }
    text[..n].copy_from_slice(&whole[..n]);
    Ok(n)
}
