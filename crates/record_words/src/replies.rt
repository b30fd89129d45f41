ghost use Rattle.std.specs.Prelude.{◌≡◌};
ghost use Rattle.answers.specs.Answer.{numbers_of};
ghost use Rattle.records.specs.Change.{with_change};
ghost use Rattle.record_words.specs.Words.{monitor_in, words_after, answer_words};

use crate::slots::{ALL_RECORDS_WORDS, put_change};
use answers::Numbers;
use commands::Decision;

// Makes the change that a call decided of the record of its slot, and writes its answer.
pub fn put_decision(
    words: &mut [u64; ALL_RECORDS_WORDS],
    slot: u64,
    decision: Decision,
    answer: &mut [u64; 5],
)
    ensures changed { words.new ≡ words_after words.old (with_change (monitor_in words.old) slot decision.change) }
    ensures answered { answer.new ≡ answer_words (numbers_of decision.answer) }
{
    if decision.change.alters() {
        put_change(words, slot, decision.change);
    }
    put_answer(answer, decision);
}

// Writes the answer of what a call decided: the verdict and v0 to v3, in the order of the C interface.
pub fn put_answer(words: &mut [u64; 5], decision: Decision)
    ensures { words.new ≡ answer_words (numbers_of decision.answer) }
{
    let numbers = Numbers::from(decision.answer);
    *words = [
        numbers.verdict,
        numbers.v0,
        numbers.v1,
        numbers.v2,
        numbers.v3,
    ];
}
