// One record: its first fault in 01's order, and the family that a family record holds.
ghost use Rattle.std.specs.Prelude.{◌≡◌, ◌+◌, ◌^◌, ◌≤◌, ◌<◌, length};
ghost use Rattle.sheets.specs.Refusals.{first_fault};
ghost use Rattle.sheets.specs.Bytes.{le16};
ghost use Rattle.sheets.specs.Records.{length_of, head_tests, header_tests, element_tests, family_tests, family_record, bad_segment, last_of, fault};
ghost use Rattle.sheets.specs.Answered.{number_of};
ghost use Rattle.sheets.specs.Steps.{Checked};

use crate::digits;
use crate::refusals::{Fault, Refused};
use families::Family;

// The kinds of records. They are numbers, since 01 names the form: a match on the kind number, with a range for unknown kinds.
pub const HEADER: u32 = 1;

pub const ELEMENT: u32 = 2;

pub const FAMILY: u32 = 3;

// What is allowed where a family stands: its last byte is at most `bound`, it starts at `from` or later, and there is room for `room` families.
// They go with the levels left, which the definitions tell apart from them; `room` is tested where no families are lent.
#[derive(Clone, Copy)]
pub struct Limits {
    pub bound: u32,
    pub from: u64,
    pub room: u32,
}

// A sheet goes with the place in it, here and in the other files, since definitions and refusals tell that place.

// The first fault of a record before those of its body: another kind is due, its length is not `long`, which is its kind's, or its body is cut.
#[tactic(auto, using(crate::proofs::Verdicts::head_kind, crate::proofs::Verdicts::head_length, crate::proofs::Verdicts::head_cut, crate::proofs::Verdicts::head_good))]
pub fn head_fault(sheet: &[u8], at: usize, kind: u32, due: u32, long: u32) -> Result<(), Fault>
    requires there { at + 4 ≤ length sheet.now }
    requires stated { kind ≡ le16 sheet.now (at + 2) }
    requires length { long ≡ length_of kind }
    ensures { number_of result ≡ first_fault (head_tests sheet.now due at) }
{
    if kind != due {
        return Err(Fault::Kind);
    }
    if digits::le16_at(sheet, at) != long {
        return Err(Fault::Length);
    }
    if sheet.len() - at < 2 + long as usize {
        return Err(Fault::Short);
    }
    Ok(())
}

// A header's body: the count of elements is 1 to 16.
#[tactic(auto, using(crate::proofs::Verdicts::header_none, crate::proofs::Verdicts::header_many, crate::proofs::Verdicts::header_good))]
pub fn header_fault(sheet: &[u8], at: usize) -> Result<(), Fault>
    requires { at + 10 ≤ length sheet.now }
    ensures { number_of result ≡ first_fault (header_tests sheet.now at) }
{
    let count = digits::le16_at(sheet, at + 8);
    if count == 0 || 16 < count {
        return Err(Fault::Count);
    }
    Ok(())
}

// An element's body: the count of top families is not 0.
#[tactic(auto, using(crate::proofs::Verdicts::element_none, crate::proofs::Verdicts::element_good))]
pub fn element_fault(sheet: &[u8], at: usize) -> Result<(), Fault>
    requires { at + 6 ≤ length sheet.now }
    ensures { number_of result ≡ first_fault (element_tests sheet.now at) }
{
    if digits::le16_at(sheet, at + 4) == 0 {
        return Err(Fault::Count);
    }
    Ok(())
}

// The family that a family record holds.
#[tactic(auto, unfolding(crate::specs::Records::family_record))]
pub fn family_record(sheet: &[u8], at: usize) -> Family
    requires { at + 22 ≤ length sheet.now }
    ensures held { result ≡ family_record sheet.now at }
    ensures children { result.children < 65536 }
{
    Family {
        l: digits::le32_at(sheet, at + 4),
        r: digits::le32_at(sheet, at + 8),
        s: digits::le32_at(sheet, at + 12),
        n: digits::le32_at(sheet, at + 16),
        children: digits::le16_at(sheet, at + 20),
        span: 0,
    }
}

// n = 0, r < l, or the stride rule broken.
#[tactic(auto, using(crate::proofs::Verdicts::segment_none, crate::proofs::Verdicts::segment_back, crate::proofs::Verdicts::segment_one, crate::proofs::Verdicts::segment_more))]
pub fn bad_segment(f: Family) -> bool
    ensures { result ≡ bad_segment f }
{
    f.n == 0 || f.r < f.l || if f.n == 1 { f.s != 0 } else { f.s <= f.r - f.l }
}

// The last byte of a family's last segment. 64 bits hold it, and the byte after it, for every family.
pub fn last_byte(f: Family) -> u64
    requires some { 1 ≤ f.n }
    requires forward { f.l ≤ f.r }
    ensures last { result ≡ last_of f }
    ensures fits { result + 1 < 2 ^ 64 }
{
    u64::from(f.r) + u64::from(f.n - 1) * u64::from(f.s)
}

// A family's faults.
#[tactic(auto, using(crate::proofs::Verdicts::family_many, crate::proofs::Verdicts::family_segment, crate::proofs::Verdicts::family_span, crate::proofs::Verdicts::family_order, crate::proofs::Verdicts::family_leaf, crate::proofs::Verdicts::family_deep, crate::proofs::Verdicts::family_good))]
pub fn family_fault(f: Family, levels: u32, limits: Limits) -> Result<(), Fault>
    ensures { number_of result ≡ first_fault (family_tests levels limits f) }
{
    if limits.room == 0 {
        return Err(Fault::Many);
    }
    if bad_segment(f) {
        return Err(Fault::Segment);
    }
    if u64::from(limits.bound) < last_byte(f) {
        return Err(Fault::Span);
    }
    if u64::from(f.l) < limits.from {
        return Err(Fault::Order);
    }
    if levels <= 1 && f.children != 0 {
        return Err(Fault::Depth);
    }
    Ok(())
}

// The first fault of the record at `at`, where one of the kind `due` is due. The kind that the record has picks its length, its
// body and its checks; kinds are numbers here, since any may stand there. 02 adds an arm for kind 4, the compact family; its views, kinds 16 to 18, get a match of their own, over `head_fault` too.
pub fn record_fault(
    sheet: &[u8],
    due: u32,
    at: usize,
    levels: u32,
    limits: Limits,
) -> Result<(), Fault>
    requires inside { at ≤ length sheet.now }
    requires least { 1 ≤ due }
    requires most { due ≤ 3 }
    ensures { number_of result ≡ fault levels limits sheet.now due at }
{
    if sheet.len() - at < 4 {
        return Err(Fault::Short);
    }
    let kind = digits::le16_at(sheet, at + 2);
    match kind {
        HEADER => {
            head_fault(sheet, at, kind, due, 8)?;
            header_fault(sheet, at)
        }
        ELEMENT => {
            head_fault(sheet, at, kind, due, 4)?;
            element_fault(sheet, at)
        }
        FAMILY => {
            head_fault(sheet, at, kind, due, 20)?;
            family_fault(family_record(sheet, at), levels, limits)
        }
        0 | 4.. => Err(Fault::Kind),
    }
}

// .. with the place where it is.
pub fn check_record(
    sheet: &[u8],
    due: u32,
    at: usize,
    levels: u32,
    limits: Limits,
) -> Result<(), Refused>
    requires inside { at ≤ length sheet.now }
    requires least { 1 ≤ due }
    requires most { due ≤ 3 }
    ensures { Checked (fault levels limits sheet.now due at) at result }
{
    record_fault(sheet, due, at, levels, limits).map_err(|fault| Refused {
        fault,
        place: at as u64,
    })
}
