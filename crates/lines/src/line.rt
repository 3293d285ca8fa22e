// The lines of a listing, each put into a lent text. The words are fixed, and the numbers in decimal.
ghost use Rattle.words.specs.Written.{HasRoom, Put};
ghost use Rattle.sheets.specs.Refusals.{fault_number, fault_flag};
ghost use Rattle.lines.specs.Listing.{layout_line, element_line, flag_word, refusal_line};

use sheets::{Fault, Refused};
use words::Text;

// Puts the line of a layout.
pub fn put_layout(displacement: u32, size: u32, elements: usize, text: &mut Text<'_>)
    requires { HasRoom 97 text.old }
    ensures { Put (layout_line displacement size elements) 97 text.old text.new }
{
    text.put_both(b"layout displacement ", u64::from(displacement));
    text.put_both(b" size ", u64::from(size));
    text.put_both(b" elements ", elements as u64);
    text.put(b"\n");
}

// Puts the line of an element.
pub fn put_element(index: usize, size: u64, families: u32, first: u32, text: &mut Text<'_>)
    requires { HasRoom 104 text.old }
    ensures { Put (element_line index size families first) 104 text.old text.new }
{
    text.put_number(index as u64);
    text.put_both(b" size ", size);
    text.put_both(b" families ", u64::from(families));
    text.put_both(b" first ", u64::from(first));
    text.put(b"\n");
}

// Puts the word of a hole or an overlap; no other fault has one.
pub fn put_flag(fault: Fault, text: &mut Text<'_>)
    requires { HasRoom 8 text.old }
    ensures { Put (flag_word (fault_flag fault)) 8 text.old text.new }
{
    match fault {
        Fault::Hole => text.put(b" hole"),
        Fault::Overlap => text.put(b" overlap"),
        _ => {}
    }
}

// Puts the line of a refused sheet.
pub fn put_refusal(refused: Refused, text: &mut Text<'_>)
    requires { HasRoom 61 text.old }
    ensures { Put (refusal_line (fault_number refused.fault) refused.place (fault_flag refused.fault)) 61 text.old text.new }
{
    text.put_both(b"refused ", u64::from(refused.fault.number()));
    text.put_both(b" at ", refused.place);
    put_flag(refused.fault, text);
    text.put(b"\n");
}
