// What is said of a case, the first that is not as it should be, and of a file: how many of its cases differ.
use std::alloc::{AllocError, AllocFailed};
use std::{fmt, io};
use tables::table::Kind;

// A number of the answer.
#[derive(Clone, Copy, Debug, PartialEq, Eq)]
pub enum Number {
    Number,
    Place,
    Total,
    Nulls,
}

impl fmt::Display for Number {
    fn fmt<W: fmt::Write>(&self, f: &mut fmt::Formatter<W>) -> fmt::Result {
        match self {
            Number::Number => write!(f, "number"),
            Number::Place => write!(f, "place"),
            Number::Total => write!(f, "total"),
            Number::Nulls => write!(f, "nulls"),
        }
    }
}

// A buffer that is lent to be written; the tail is what follows the answer.
#[derive(Clone, Copy, Debug, PartialEq, Eq)]
pub enum Output {
    Validity,
    Offsets,
    Data,
    Tail,
}

impl fmt::Display for Output {
    fn fmt<W: fmt::Write>(&self, f: &mut fmt::Formatter<W>) -> fmt::Result {
        match self {
            Output::Validity => write!(f, "validity"),
            Output::Offsets => write!(f, "offsets"),
            Output::Data => write!(f, "data"),
            Output::Tail => write!(f, "answer's tail"),
        }
    }
}

// The first that is not as it should be. Null bytes: a published answer has bytes in a null row of kind 3 or 4, and was not run.
#[derive(Clone, Copy, Debug, PartialEq, Eq)]
pub enum Difference {
    Unreadable,
    NullBytes,
    Number {
        which: Number,
        got: u64,
        want: u64,
    },
    Byte {
        which: Output,
        at: usize,
        got: u8,
        want: u8,
    },
}

impl fmt::Display for Difference {
    fn fmt<W: fmt::Write>(&self, f: &mut fmt::Formatter<W>) -> fmt::Result {
        match self {
            Difference::Unreadable => write!(f, "not a case"),
            Difference::NullBytes => write!(f, "a null row of the published answer has bytes"),
            Difference::Number { which, got, want } => {
                write!(f, "{which} {got}, and should be {want}")
            }
            Difference::Byte {
                which,
                at,
                got,
                want,
            } => write!(
                f,
                "{which} has at {at} the byte {got}, and should have {want}"
            ),
        }
    }
}

// Why a case did not come out alike.
#[derive(Drop)]
pub enum Failure {
    Differs(Difference),
    OutOfMemory(AllocError),
}

impl From<Difference> for Failure {
    fn from(difference: Difference) -> Failure {
        Failure::Differs(difference)
    }
}

impl From<AllocError> for Failure {
    fn from(e: AllocError) -> Failure {
        Failure::OutOfMemory(e)
    }
}

impl<T: Drop> From<AllocFailed<T>> for Failure {
    fn from(e: AllocFailed<T>) -> Failure {
        Failure::OutOfMemory(e.into())
    }
}

// How many published answers have other bytes than zeros below a null, of each kind that has bytes there.
#[derive(Clone, Copy, Debug, Default)]
struct Zeroed {
    primitive: u64,
    boolean: u64,
    lists: u64,
    binary: u64,
}

impl Zeroed {
    fn count(&mut self, kind: Kind) {
        let n = match kind {
            Kind::Primitive => &mut self.primitive,
            Kind::Boolean => &mut self.boolean,
            Kind::FixedSizeList => &mut self.lists,
            Kind::FixedSizeBinary => &mut self.binary,
            Kind::VariableBytes | Kind::List | Kind::Unknown => return,
        };
        *n = n.saturating_add(1);
    }
}

// How the cases of a file went so far. `zeroed` is None where no answer is published.
#[derive(Clone, Copy)]
pub struct Tally<'a> {
    pub name: &'a str,
    cases: u64,
    differ: u64,
    zeroed: Option<Zeroed>,
}

impl<'a> Tally<'a> {
    pub fn new(name: &'a str) -> Tally<'a> {
        Tally {
            name,
            cases: 0,
            differ: 0,
            zeroed: None,
        }
    }

    // Of published answers.
    pub fn published(name: &'a str) -> Tally<'a> {
        Tally {
            zeroed: Some(Zeroed::default()),
            ..Tally::new(name)
        }
    }

    // Counts a case that was run, and says what differs if it is the first that does.
    pub fn count(
        &mut self,
        rt: &impl Print,
        line: usize,
        came: Result<(), Failure>,
    ) -> io::Result<()> {
        self.cases = self.cases.saturating_add(1);
        match came {
            Ok(()) => Ok(()),
            Err(Failure::OutOfMemory(e)) => Err(e.into()),
            Err(Failure::Differs(difference)) => {
                if self.differ == 0 {
                    let name = self.name;
                    println!(rt; "{name}, line {line}: {difference}")?;
                }
                self.differ = self.differ.saturating_add(1);
                Ok(())
            }
        }
    }

    // Counts a published answer of some kind that has other bytes than zeros below a null.
    pub fn count_zeroed(&mut self, kind: Kind) {
        if let Some(zeroed) = &mut self.zeroed {
            zeroed.count(kind);
        }
    }

    pub fn print(&self, rt: &impl Print) -> io::Result<()> {
        let Tally {
            name,
            cases,
            differ,
            ..
        } = *self;
        if differ == 0 {
            println!(rt; "{name}: {cases} cases, all alike")
        } else {
            println!(rt; "{name}: {cases} cases, of which {differ} differ")
        }
    }

    // Says how many published answers of each kind were compared with zeros in place of what was published below nulls, if there are any.
    pub fn print_zeroed(&self, rt: &impl Print) -> io::Result<()> {
        let Some(zeroed) = self.zeroed else {
            return Ok(());
        };
        let Zeroed {
            primitive,
            boolean,
            lists,
            binary,
        } = zeroed;
        let name = self.name;
        println!(rt;
            "{name}: zeros in place of bytes below nulls, in answers of kinds 1, 2, 5 and 6: {primitive}, {boolean}, {lists}, {binary}"
        )
    }
}
