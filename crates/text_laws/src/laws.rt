// What is promised of every text.
ghost use Rattle.text_laws.specs.Laws.{TextAnswers, LongLines, PiecesAnswered};

// A well-formed text is answered by the run of its calls; a malformed one by the calls before it, then 14; settings out
// of range by 1.
#[tactic(auto, using(crate::proofs::TextLaws::text_answers))]
pub fn text_answers()
    ensures { TextAnswers }
{}

// A line longer than any table has is 14, whatever follows.
#[tactic(auto, using(crate::proofs::LongLines::long_lines))]
pub fn long_lines()
    ensures { LongLines }
{}

// A text is answered alike whatever pieces it comes in.
#[tactic(auto, using(crate::proofs::PieceLaws::pieces_answered))]
pub fn pieces_answered()
    ensures { PiecesAnswered }
{}
