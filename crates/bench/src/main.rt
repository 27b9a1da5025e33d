// The bench program: reads lines from standard input to its end, and writes an answer to each. Document 01, 'Bench program'. It holds one
// piece of input, one line, one piece of answers and the post's state, however long the input is. What is answered is `bench_answers`'s
// doing; here is reading and writing.
#![tactic(auto)]

use bench_answers::{Begun, Carried, LINE, Post};
use post::MOST_STATE;
use std::io::{self, Print, Read, Stdin, Stdout};

// As much as is read at a time, and as much as is written.
const PIECE: usize = 65536;

const TEXT: usize = 65536;

// What goes on from one piece to the next, and a piece of answers.
#[derive(Drop)]
pub struct Bench {
    pub carried: Carried,
    pub text: [u8; TEXT],
}

impl Bench {
    fn new() -> Bench {
        let post = Post {
            leads: 0,
            state: [0; MOST_STATE],
        };
        let begun = Begun {
            count: 0,
            line: [0; LINE],
        };
        let carried = Carried { begun, post };
        Bench {
            carried,
            text: [0; TEXT],
        }
    }

    // Answers a piece of input: as many lines as the text has room for, then it is written, and so on to the piece's end.
    fn answer_piece(&mut self, out: Stdout, piece: &[u8]) -> io::Result<()> {
        let mut rest = piece;
        while !rest.is_empty() {
            let fed = self.carried.feed(rest, &mut self.text);
            out.write_all(&self.text[..fed.count])?;
            rest = &rest[fed.read..];
        }
        Ok(())
    }

    // To the end of the input, piece by piece; whoever waits for answers gets them before the next read. As a proved loop has to end, it
    // counts up to a number that no input reaches.
    fn answer_pieces(&mut self, mut input: Stdin, out: Stdout) -> io::Result<()> {
        let mut piece = [0; PIECE];
        for _ in 0..u64::MAX {
            let end = input.read(&mut piece)?;
            if end == 0 {
                break;
            }
            self.answer_piece(out, &piece[..end])?;
        }
        Ok(())
    }

    // The last line may have no line feed.
    fn answer_last(&mut self, out: Stdout) -> io::Result<()> {
        let end = self.carried.finish(&mut self.text);
        out.write_all(&self.text[..end])
    }
}

fn answer_all(input: Stdin, out: Stdout) -> io::Result<()> {
    let mut bench = Bench::new();
    bench.answer_pieces(input, out)?;
    bench.answer_last(out)
}

fn main(rt: HostRuntime) {
    // A failed read or write ends it all without a word: after a failed read the rest of the line begun is not known.
    let _answered = answer_all(rt.stdin(), rt.stdout()).is_ok();
}
