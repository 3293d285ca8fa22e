// Answers: reads calls from standard input and prints the answer to each, a frame in and a line out. This is how a separate program, or any office's
// script, asks the library.
//
// `frames` finds the parts of a frame, `numbers` reads and writes numbers of 64 bits, `calls` makes the call, with `asking` for those that write nothing,
// `carrying` for those that carry bytes and `writing` for those that write a list or a text; `line` writes the line. All are functions on slices and are
// proved to do just what their definitions say. No contract can say what is read or written, so this file is proved safe, and proved to end.
#![tactic(auto)]

mod asking;
mod calls;
mod carrying;
mod frames;
mod line;
mod numbers;
mod writing;

ghost use Rattle.std.specs.Prelude.{length};
ghost use Rattle.answers.specs.Lines.{Room};

use std::ops::ControlFlow;

// The kit's `io`, by the numbers of the streams, and not std's `Read` and `Write`: those rest on one contract of the C library's more, that of `errno`.
const INPUT: i32 = 0;

const OUTPUT: i32 = 1;

// Says that the input is no frame, and that the program ends.
fn refuse() -> ControlFlow<()> {
    io::write_all(OUTPUT, b"bad frame\n");
    ControlFlow::Break(())
}

// Prints the line of a frame, and answers whether to go on: not after a bad one, nor where it cannot be printed. Here and below `buffer` has room for the
// frame's destination buffer, and `text` for its line. They are slices and not the fields of a struct, of which no two could be lent on
// where the struct itself is lent (tried).
fn print_answer(frame: &[u8], buffer: &mut [u8], text: &mut [u8]) -> ControlFlow<()>
    requires { Room (length frame.now) (length buffer.old) (length text.old) }
{
    let Some(n) = calls::answer(frame, buffer, text) else {
        return refuse();
    };
    if io::write_all(OUTPUT, &text[..n]) {
        ControlFlow::Continue(())
    } else {
        ControlFlow::Break(())
    }
}

// Reads what fills the frame, and answers it.
fn answer_frame(frame: &mut [u8], buffer: &mut [u8], text: &mut [u8]) -> ControlFlow<()>
    requires { Room (length frame.old) (length buffer.old) (length text.old) }
{
    let got = io::read_full(INPUT, frame);
    if got < frame.len() {
        return refuse();
    }
    print_answer(frame, buffer, text)
}

// Reads one frame into `space`, which has room for the longest, and prints its line. Answers whether to go on: not after the last frame, and
// not after a bad one.
#[tactic(auto, using(crate::proofs::Ends::front_room))]
fn answer_one(space: &mut [u8], buffer: &mut [u8], text: &mut [u8]) -> ControlFlow<()>
    requires { Room (length space.old) (length buffer.old) (length text.old) }
{
    let mut head = [0u8; 4];
    let got = io::read_full(INPUT, &mut head);
    if got == 0 {
        return ControlFlow::Break(());
    }
    if got < 4 {
        return refuse();
    }
    let n = frames::number(&head);
    if n > space.len() {
        return refuse();
    }
    answer_frame(&mut space[..n], buffer, text)
}

// Nothing says that the input ends, and a proved loop has to: it has more turns than any run uses up.
fn answer_all(space: &mut [u8], buffer: &mut [u8], text: &mut [u8])
    requires { Room (length space.old) (length buffer.old) (length text.old) }
{
    for _ in 0..u64::MAX {
        if answer_one(space, buffer, text).is_break() {
            return;
        }
    }
}

fn main() {
    let mut space = [0u8; frames::MOST];
    let mut buffer = [0u8; frames::MOST];
    let mut text = [0u8; line::LONGEST];
    answer_all(&mut space, &mut buffer, &mut text);
}
