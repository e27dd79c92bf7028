// The answer of a gather, what was gathered or the refusal, as the four numbers that C sees.
ghost use Rattle.std.specs.Prelude.{◌≡◌};
ghost use Rattle.tables.specs.Answers.{refuse};

use crate::refusal::Refusal;

// `total` data bytes were written, and `nulls` of the rows are null. Where a gather answers a refusal, nothing was written.
#[derive(Clone, Copy, Debug, PartialEq, Eq)]
pub struct Gathered {
    pub total: u64,
    pub nulls: u64,
}

// The four numbers.
#[derive(Clone, Copy, Debug, PartialEq, Eq)]
pub struct Answer {
    pub number: u64,
    pub place: u64,
    pub total: u64,
    pub nulls: u64,
}

fn numbers(number: u64, place: u64, total: u64) -> Answer
    ensures { result ≡ refuse number place total }
{
    Answer {
        number,
        place,
        total,
        nulls: 0,
    }
}

impl From<Refusal> for Answer {
    ghost use Rattle.std.specs.Prelude.{◌≡◌};
    ghost use Rattle.tables.specs.Answers.{refusal_numbers};

    ghost from_gives = { λ refusal answer. answer ≡ refusal_numbers refusal };

    fn from(refusal: Refusal) -> Answer {
        match refusal {
            Refusal::Kind => numbers(1, 0, 0),
            Refusal::Limit => numbers(2, 0, 0),
            Refusal::Short => numbers(3, 0, 0),
            Refusal::Offsets { place } => numbers(4, place, 0),
            Refusal::Range { place } => numbers(5, place, 0),
            Refusal::Overflow { place, total } => numbers(6, place, total),
            Refusal::Space { place, total } => numbers(7, place, total),
            Refusal::Rows => numbers(8, 0, 0),
        }
    }
}

impl From<Result<Gathered, Refusal>> for Answer {
    ghost use Rattle.std.specs.Prelude.{◌≡◌};
    ghost use Rattle.tables.specs.Answers.{answered_numbers};

    ghost from_gives = { λ answered answer. answer ≡ answered_numbers answered };

    fn from(answered: Result<Gathered, Refusal>) -> Answer {
        match answered {
            Ok(gathered) => Answer {
                number: 0,
                place: 0,
                total: gathered.total,
                nulls: gathered.nulls,
            },
            Err(refusal) => Answer::from(refusal),
        }
    }
}
