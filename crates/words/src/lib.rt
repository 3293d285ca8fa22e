// Words: words and numbers, each put into a lent text behind what is written of it.
#![tactic(auto)]

ghost use Rattle.std.specs.Prelude.{◌≡◌, ◌+◌, ◌++◌, length};
ghost use Rattle.words.specs.Texts.{decimal};

use itoa::Buffer;

// A lent text, of which the first `len` bytes are written.
// Clauses see the fields, with no model over them: only by the ghost name of `bytes` does their lender learn what they hold afterwards.
#[derive(Drop)]
pub struct Text<'a> {
    pub bytes: &'a mut [u8],
    pub len: usize,
}

// That there is room is a clause of what puts: each piece asks for another number of bytes.
impl<'a> Text<'a> {
    ghost use Rattle.words.specs.Written.{HasRoom, Put};

    // Lends the bytes; none of them is written.
    pub fn new(bytes: &'a mut [u8]) -> Text<'a>
        ensures lent { result.bytes ≡ bytes.entry }
        ensures empty { result.len ≡ 0 }
    {
        Text { bytes, len: 0 }
    }

    // Puts a word.
    pub fn put(&mut self, word: &[u8])
        requires { HasRoom (length word.now) self.old }
        ensures { Put word.now (length word.now) self.old self.new }
    {
        let n = word.len();
        copies::copy_run(word, 0, self.bytes, self.len, n);
        self.len += n;
    }

    // Puts n in decimal.
    pub fn put_number(&mut self, n: u64)
        requires { HasRoom 20 self.old }
        ensures { Put (decimal n) 20 self.old self.new }
    {
        let mut digits = Buffer::new();
        self.put(digits.format(n).as_bytes());
    }

    // Puts a word and a number behind it.
    pub fn put_both(&mut self, word: &[u8], n: u64)
        requires { HasRoom (length word.now + 20) self.old }
        ensures { let w = word.now in Put (w ++ decimal n) (length w + 20) self.old self.new }
    {
        self.put(word);
        self.put_number(n);
    }
}
