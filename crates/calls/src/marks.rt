// The marks of a simplify call: the words that the desk has for them, or zeros where the answer shows none.
ghost use Rattle.std.specs.Prelude.{length, ◌≡◌};
ghost use Rattle.memory.specs.Marks.{most_marks};
ghost use Rattle.calls.specs.Marks.{is_shown};
ghost use Rattle.calls.specs.Frame.{Shown, Copies};

use super::Simplified;
use expression::refusal::Refusal;
use memory::layout::{DESK_WORDS, MARKS, MARKS_FROM};

// After a success, and at a lack: NEED and INCOMPLETE show the rows that were used up to there.
fn is_shown(answer: Result<Simplified, Refusal>) -> bool
    ensures { result ≡ is_shown answer }
{
    match answer {
        Ok(_) => true,
        Err(why) => why.is_lack(),
    }
}

// Each mark on the desk is 0 or 1.
fn copy_marks(desk: &[u64; DESK_WORDS], marks: &mut [u8; MARKS])
    ensures { length marks.old ≡ most_marks → Copies desk.now marks.new }
{
    for row in 0..MARKS {
        marks[row] = (desk[MARKS_FROM + row] % 256) as u8;
    }
}

pub fn show_marks(
    answer: Result<Simplified, Refusal>,
    desk: &[u64; DESK_WORDS],
    marks: &mut [u8; MARKS],
)
    ensures { Shown answer desk.now marks.new }
{
    *marks = [0; MARKS];
    if is_shown(answer) {
        copy_marks(desk, marks);
    }
}
