// Pieces of input, cut into lines, and the lines' answers one behind the other.
ghost use Rattle.std.specs.Prelude.{◌⊎◌, ◌≡◌, ◌+◌, ◌≤◌, ◌<◌, min, length, take, position, ◌==◌};
ghost use Rattle.bench_answers.specs.Rooms.{line_room, answer_room};
ghost use Rattle.bench_answers.specs.Posts.{answer_to};
ghost use Rattle.bench_answers.specs.Buffers.{Left, leaves};
ghost use Rattle.bench_answers.specs.Pieces.{joins, fed, last_text};

use super::answers::Post;
use bench_line::LONGEST;
use post::MOST_OUTPUT;

// One character more than a line may have: a longer line is too long whatever follows.
pub const LINE: usize = LONGEST + 1;

// The longest answer: `0`, a tab, the output of as many leads as a post may have, in hex, and a line feed.
pub const ANSWER: usize = 2 * MOST_OUTPUT + 3;

const LINE_FEED: u8 = b'\n';

// A line begun: so many of its characters are here.
// Kept: a count stands beside an array, as a rule of the project (no heap, fixed memory) needs it.
#[derive(Drop)]
pub struct Begun {
    pub count: usize,
    pub line: [u8; LINE],
    pub ghost fits: { count ≤ line_room },
}

// What goes on from one piece to the next.
#[derive(Drop)]
pub struct Carried {
    pub begun: Begun,
    pub post: Post,
}

// How many characters of a piece have been read, and how many characters of answers are in the text buffer.
#[derive(Clone, Copy)]
pub struct Progress {
    pub read: usize,
    pub count: usize,
}

// Where the first line feed stands.
// Kept: one call of the library, as `first_tab` of bench_line is with a tab; a function for both would be as long.
fn line_feed(characters: &[u8]) -> Option<usize>
    ensures { result ≡ position (λ c. c == 10) characters.now }
{
    characters.iter().position(|&c| c == LINE_FEED)
}

impl Begun {
    // Puts a part of the line behind what is there, as far as it goes in.
    fn add(&mut self, part: &[u8])
        ensures { take self.new.count self.new.line ≡ joins (take self.old.count self.old.line) part.now }
    {
        let here = self.count;
        let more = part.len().min(LINE - here);
        self.line[here..here + more].copy_from_slice(&part[..more]);
        self.count += more;
    }
}

impl Carried {
    ghost use Rattle.bench_answers.specs.Progress.{going_in, comes_to, Fits};

    // Answers the line begun.
    fn answer_line(&mut self, text: &mut [u8]) -> usize
        ensures answered { ◌≡◌ {A = Left}
            (record { post = (going_in self.new).post; written = record { count = result; text = text.new } })
            (leaves (answer_to (going_in self.old).post (going_in self.old).begun) text.old) }
        ensures kept { (self.new.begun.count ≡ self.old.begun.count) × (self.new.begun.line ≡ self.old.begun.line) }
    {
        self.post.answer(&self.begun.line[..self.begun.count], text)
    }

    // Reads on to the end of a line, and answers it, or to the end of the piece, and keeps the line begun.
    fn next_line(&mut self, at: Progress, piece: &[u8], text: &mut [u8]) -> Progress
        requires fits { Fits at piece.now text.old }
        requires goes_on { (at.read < length piece.now) × (at.count + answer_room ≤ length text.old) }
        ensures fits { Fits result piece.now text.old × (at.read < result.read) }
        ensures answered { comes_to self.new result piece.now text.new ≡ comes_to self.old at piece.now text.old }
    {
        let rest = &piece[at.read..];
        let Some(length) = line_feed(rest) else {
            self.begun.add(rest);
            return Progress {
                read: piece.len(),
                ..at
            };
        };
        self.begun.add(&rest[..length]);
        let written = self.answer_line(&mut text[at.count..]);
        self.begun.count = 0;
        Progress {
            read: at.read + length + 1,
            count: at.count + written,
        }
    }

    // Answers the lines of a piece, to its end or as long as the text has room for another answer.
    pub fn feed(&mut self, piece: &[u8], text: &mut [u8]) -> Progress
        requires { answer_room ≤ length text.old }
        ensures fits { Fits result piece.now text.old × (min 1 (length piece.now) ≤ result.read) }
        ensures to_end { (result.read ≡ length piece.now) ⊎ (length text.old < result.count + answer_room) }
        ensures answered { comes_to self.new result piece.now text.new ≡ fed (going_in self.old) piece.now }
    {
        let mut at = Progress { read: 0, count: 0 };
        // Kept: this is not a `for`, since each turn goes on by what a line took.
        while at.read < piece.len() {
            if text.len() - at.count < ANSWER {
                return at;
            }
            at = self.next_line(at, piece, text);
        }
        at
    }

    // At the end of the input: a line begun is the last one, without a line feed.
    pub fn finish(&mut self, text: &mut [u8]) -> usize
        requires { answer_room ≤ length text.old }
        ensures written { (result ≤ length text.old) × (take result text.new ≡ last_text (going_in self.old)) }
        ensures kept { (self.new.begun.count ≡ self.old.begun.count) × (self.new.begun.line ≡ self.old.begun.line) }
    {
        if self.begun.count == 0 {
            return 0;
        }
        self.answer_line(text)
    }
}
