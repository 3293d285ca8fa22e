// An answer as a line of text: its numbers in decimal, a space after each, and the destination buffer in hex.
ghost use Rattle.std.specs.Prelude.{◌≡◌, ◌+◌, ◌*◌, ◌≤◌, ◌<◌, length, take};
ghost use Rattle.io.specs.Counts.{IsPrefixLen};
ghost use Rattle.io.specs.Digits.{hex_digit_ascii};
ghost use Rattle.words.specs.Written.{HasRoom, Put};
ghost use Rattle.answers.specs.Lines.{field, fields, hex, buffer, line};

use said::Answer;
use words::Text;

// The longest line: seven numbers of 20 digits, a space after each, two digits for each byte of a buffer that is no longer than its frame, or its `-`,
// and the line's end.
pub const LONGEST: usize = 131213;

// Puts n in decimal and a space.
fn put_field(n: u64, text: &mut Text<'_>)
    requires { HasRoom 21 text.old }
    ensures { Put (field n) 21 text.old text.new }
{
    text.put_number(n);
    text.put(b" ");
}

// Puts the answer's numbers.
fn put_numbers(answer: Answer, text: &mut Text<'_>)
    requires { HasRoom 147 text.old }
    ensures { Put (fields answer) 147 text.old text.new }
{
    let numbers = [
        answer.number,
        answer.sheet,
        answer.place,
        answer.flag,
        answer.value,
        answer.value2,
        answer.value3,
    ];
    for number in numbers {
        put_field(number, text);
    }
}

// The character of a digit of base 16.
fn hex_digit(d: u8) -> u8
    requires { d < 16 }
    ensures { result ≡ hex_digit_ascii d }
{
    if d < 10 { b'0' + d } else { b'a' - 10 + d }
}

// Writes bytes in hex over digits that have just the room they take. Not by the kit's `hex::encode_to_slice`: it looks each digit up, 11 instructions
// a byte where this takes 3, and most of what answering a call with a long buffer costs is its hex.
fn write_hex(bytes: &[u8], digits: &mut [u8])
    requires { length digits.old ≡ 2 * length bytes.now }
    ensures { digits.new ≡ hex bytes.now }
{
    for (i, byte) in bytes.iter().enumerate() {
        digits[2 * i] = hex_digit(*byte / 16);
        digits[2 * i + 1] = hex_digit(*byte % 16);
    }
}

// Puts bytes in hex.
fn put_hex(bytes: &[u8], text: &mut Text<'_>)
    requires { HasRoom (2 * length bytes.now) text.old }
    ensures { Put (hex bytes.now) (2 * length bytes.now) text.old text.new }
{
    let end = text.len + 2 * bytes.len();
    write_hex(bytes, &mut text.bytes[text.len..end]);
    text.len = end;
}

// Puts a buffer.
fn put_buffer(bytes: &[u8], text: &mut Text<'_>)
    requires { HasRoom (2 * length bytes.now + 1) text.old }
    ensures { Put (buffer bytes.now) (2 * length bytes.now + 1) text.old text.new }
{
    if bytes.is_empty() {
        text.put(b"-");
    } else {
        put_hex(bytes, text);
    }
}

// Puts the line of an answer and of the destination buffer.
fn put_answer(answer: Answer, into: &[u8], text: &mut Text<'_>)
    requires { HasRoom (149 + 2 * length into.now) text.old }
    ensures put { Put (line answer into.now) (149 + 2 * length into.now) text.old text.new }
    ensures some { 0 < text.new.len }
{
    put_numbers(answer, text);
    put_buffer(into, text);
    text.put(b"\n");
}

// Puts the line of an answer and of the destination buffer at the front of `text`, and answers how long it is.
pub fn put_line(answer: Answer, into: &[u8], text: &mut [u8]) -> usize
    requires { 149 + 2 * length into.now ≤ length text.old }
    ensures line { take result text.new ≡ line answer into.now }
    ensures lent { IsPrefixLen result text.new }
    ensures some { 0 < result }
{
    let mut lined = Text::new(text);
    put_answer(answer, into, &mut lined);
    lined.len
}
