// The lent answer: four numbers of 64 bits, little-endian.
ghost use Rattle.std.specs.Prelude.{◌≡◌, ◌≤◌, length};
ghost use Rattle.bits.specs.Bytes.{overwrite};
ghost use Rattle.tables.specs.Answers.{answered_numbers};
ghost use Rattle.answers.specs.Exported.{answer_bytes};

use bits::number::write_number;
use tables::answer::{Answer, Gathered};
use tables::refusal::Refusal;

// How many bytes the answer has.
pub const ANSWER_BYTES: usize = 32;

// What a call returns whose slice for the answer is shorter: the number of refusal 7, of an output that is too short.
pub const SHORT_ANSWER: u64 = 7;

// Writes the four numbers, eight bytes each, over the first 32 bytes.
pub fn write_answer(answer: Answer, out: &mut [u8])
    requires { 32 ≤ length out.old }
    ensures { out.new ≡ overwrite (answer_bytes answer) out.old }
{
    write_number::<8>(out, 0, answer.number);
    write_number::<8>(out, 8, answer.place);
    write_number::<8>(out, 16, answer.total);
    write_number::<8>(out, 24, answer.nulls);
}

// Writes those of what a gather answers, and returns the first, as C's functions do.
pub fn write_answered(answered: Result<Gathered, Refusal>, out: &mut [u8]) -> u64
    requires { 32 ≤ length out.old }
    ensures number { result ≡ (answered_numbers answered).number }
    ensures written { out.new ≡ overwrite (answer_bytes (answered_numbers answered)) out.old }
{
    let answer = Answer::from(answered);
    write_answer(answer, out);
    answer.number
}
