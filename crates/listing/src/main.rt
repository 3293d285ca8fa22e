// Listing: reads one layout sheet from standard input, and prints what a person wants to know of it: its layout's lines, or the line of its refusal.
//
// `astrephon::list_sheet` writes the text, and is proved to. No contract can say what is read or printed, so this file is proved safe, and proved to end.
#![tactic(auto)]

// The streams by their numbers, as the kit's `io` takes them: std's own rest on one more contract of the C library.
const INPUT: i32 = 0;

const OUTPUT: i32 = 1;

// The longest sheet has 5,738 bytes. Of a longer input what is cut off changes no answer: it is refused before, or for the bytes that follow.
const MOST: usize = 8192;

fn main() {
    let mut sheet = [0u8; MOST];
    let mut text = [0u8; astrephon::LONGEST_LISTING];
    let got = io::read_full(INPUT, &mut sheet);
    if let Ok(n) = astrephon::list_sheet(&sheet[..got], &mut text) {
        io::write_all(OUTPUT, &text[..n]);
    }
}
