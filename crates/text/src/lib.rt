// Texts by line, a reader that keeps a text and its place in it, and writing into a lent buffer. The work is done by `line_length`, over a plain slice,
// and the two methods of the reader are thin.
#![tactic(auto)]

ghost use Rattle.std.specs.Prelude.{[], ◌∷◌, ◌≡◌, drop};
ghost use Rattle.text.specs.Lines.{line_length};
ghost use Rattle.text.specs.Places.{opened, moved};
ghost use Rattle.text.specs.Writing.{laid};

// How many bytes the line at this index has, with its line feed; 0 where the text has ended.
pub fn line_length(text: &[u8], at: usize) -> usize
    ensures { result ≡ line_length (drop at text.now) }
{
    for i in at..text.len() {
        if text[i] == b'\n' {
            return i + 1 - at;
        }
    }
    text.len().saturating_sub(at)
}

// A text, and the index of the next line.
#[derive(Drop)]
pub struct Reader<'a> {
    pub text: &'a [u8],
    pub at: usize,
}

impl<'a> Reader<'a> {
    // The whole text is still to be read.
    pub fn new(text: &'a [u8]) -> Reader<'a>
        ensures { result ≡ opened text.entry }
    {
        Reader { text, at: 0 }
    }

    // The next line is taken: the reader stands behind it, and stays where it is at the end of the text.
    pub fn next_line(self) -> Reader<'a>
        ensures { result ≡ moved self.entry }
    {
        let Reader { text, at } = self;
        let len = line_length(text, at);
        Reader { text, at: at + len }
    }
}

// One byte at this index, if the buffer reaches so far.
pub fn put(buffer: &mut [u8], at: usize, byte: u8)
    ensures { buffer.new ≡ laid at (byte ∷ []) buffer.old }
{
    if at < buffer.len() {
        buffer[at] = byte;
    }
}
