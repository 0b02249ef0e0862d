// The lines that ask the model and do not change it.
#![tactic(auto)]

mod expectation;
mod frames;
mod register_lines;

ghost use Rattle.std.specs.Prelude.{◌≡◌};
ghost use Rattle.item_questions.specs.Answers.{question_line};

use device::Model;
use item_state::counts::USED;
use item_state::output::first_words;
use line::Content;

// Answers such a line. Any other is passed over.
pub fn answer_question(
    m: Model,
    content: Content,
    numbers: &[u32],
    counts: &mut [usize; 22],
    answers: &mut [u8],
)
    ensures { record { counts = counts.exit.now; answers = answers.new } ≡ question_line content numbers.now m record { counts = counts.entry.now; answers = answers.old } }
{
    match content {
        Content::Expect { address, words } => {
            expectation::expect(m, address, first_words(numbers, words), counts, answers);
        }
        Content::Frames => frames::frames(m, counts, answers),
        Content::Int => counts[USED] = register_lines::put_interrupt(answers, counts[USED], m),
        Content::Awaited => counts[USED] = register_lines::put_awaited(answers, counts[USED], m),
        Content::Regs => counts[USED] = register_lines::put_registers(answers, counts[USED], m),
        Content::Show => counts[USED] = show::put_page(answers, counts[USED], m),
        _ => {}
    }
}
