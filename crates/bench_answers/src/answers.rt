// A line's answer.
ghost use Rattle.std.specs.Prelude.{◌≡◌, ◌≤◌};
ghost use Rattle.post.specs.Heads.{most_leads};
ghost use Rattle.bench_answers.specs.Posts.{answer_setup, answer_tick, answer_to};
ghost use Rattle.bench_answers.specs.Buffers.{kept_in, Left, leaves};

use super::posts::{leads_of, set_up, tick_on};
use bench_line::{Answer, LONGEST, Line, parse, write_answer};
use post::{MOST_OUTPUT, MOST_STATE, output_length};
use setup_numbers::SetupNumbers;

// `tick` and a tab.
const BEFORE_INPUT: usize = 5;

// The most bytes that a line can say, in pairs of digits.
const INPUT: usize = (LONGEST - BEFORE_INPUT) / 2;

// The post kept from line to line: how many leads it has, 0 before an accepted setup, and its state, with room for that of the most leads.
// Kept: 0 and no `Option`, as `leads` of `no_post` in the theorem `whole_input` is this number.
#[derive(Clone, Copy)]
pub struct Post {
    pub leads: u8,
    pub state: [u8; MOST_STATE],
    pub ghost few: { leads ≤ most_leads },
}

impl Post {
    fn answer_setup(&mut self, numbers: SetupNumbers, text: &mut [u8]) -> usize
        ensures { ◌≡◌ {A = Left}
            (record { post = kept_in self.new.leads self.new.state; written = record { count = result; text = text.new } })
            (leaves (answer_setup (kept_in self.old.leads self.old.state) numbers) text.old) }
    {
        let number = set_up(numbers, &mut self.state);
        // A refused setup keeps the earlier post.
        if number == 0 {
            self.leads = leads_of(numbers.leads);
        }
        write_answer(Answer::Returned(number as u8), text)
    }

    fn answer_tick(&mut self, count: usize, input: &[u8], text: &mut [u8]) -> usize
        ensures { ◌≡◌ {A = Left}
            (record { post = kept_in self.new.leads self.new.state; written = record { count = result; text = text.new } })
            (leaves (answer_tick (kept_in self.old.leads self.old.state) count input.now) text.old) }
    {
        if self.leads == 0 {
            return write_answer(Answer::Unknown, text);
        }
        let mut output = [0; MOST_OUTPUT];
        let number = tick_on(self.leads, count, &mut self.state, input, &mut output);
        if number == 0 {
            let end = output_length(self.leads);
            return write_answer(Answer::Done(&output[..end]), text);
        }
        write_answer(Answer::Returned(number as u8), text)
    }

    // A line without its line feed. Returns how many characters were written.
    pub fn answer(&mut self, line: &[u8], text: &mut [u8]) -> usize
        ensures { ◌≡◌ {A = Left}
            (record { post = kept_in self.new.leads self.new.state; written = record { count = result; text = text.new } })
            (leaves (answer_to (kept_in self.old.leads self.old.state) line.now) text.old) }
    {
        let mut input = [0; INPUT];
        match parse(line, &mut input) {
            Some(Line::Setup(numbers)) => self.answer_setup(numbers, text),
            Some(Line::Tick(count)) => self.answer_tick(count, &input, text),
            None => write_answer(Answer::Unknown, text),
        }
    }
}
