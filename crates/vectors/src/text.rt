// The fields of a line, where one space stands between two: numbers in decimal, bytes in hexadecimal, and words. What is not there is no case.
ghost use Rattle.std.specs.Prelude.{◌<◌, IfOk};

use crate::report::{Difference, Failure};
use std::alloc::Global;
use std::str::Split;

// The most bytes that a field gives.
const MOST: usize = 1024;

// The fields that are still to be read.
#[derive(Drop)]
pub struct Fields<'a>(Split<'a, char>);

impl<'a> Fields<'a> {
    pub fn new(line: &'a str) -> Fields<'a> {
        Fields(line.split(' '))
    }

    fn field(&mut self) -> Result<&'a str, Difference> {
        self.0.next().ok_or(Difference::Unreadable)
    }

    // A number, or the largest one where the digits stand for one that is larger.
    pub fn number(&mut self) -> Result<u64, Difference> {
        let field = self.field()?;
        if field.is_empty() || !field.bytes().all(|byte| byte.is_ascii_digit()) {
            return Err(Difference::Unreadable);
        }
        Ok(field.parse::<u64>().unwrap_or(u64::MAX))
    }

    // Bytes, two digits each; a hyphen stands for none.
    pub fn bytes(&mut self, alloc: Global) -> Result<Vec<u8>, Failure> {
        let mut bytes = Vec::new(alloc);
        let field = self.field()?;
        if field == "-" {
            return Ok(bytes);
        }
        let (pairs, rest) = field.as_bytes().as_chunks::<2>();
        if pairs.is_empty() || !rest.is_empty() || MOST < pairs.len() {
            return Err(Difference::Unreadable.into());
        }
        for [high, low] in pairs {
            bytes.push(digit(*high)? * 16 + digit(*low)?)?;
        }
        Ok(bytes)
    }

    pub fn word(&mut self, word: &str) -> Result<(), Difference> {
        if self.field()? == word {
            Ok(())
        } else {
            Err(Difference::Unreadable)
        }
    }

    pub fn end(&mut self) -> Result<(), Difference> {
        match self.0.next() {
            None => Ok(()),
            Some(_) => Err(Difference::Unreadable),
        }
    }
}

// Field n of a line, be it a case or not; empty where there are fewer.
pub fn field(line: &[u8], n: usize) -> &[u8] {
    line.split(|byte| *byte == b' ').nth(n).unwrap_or(b"")
}

// The number of a field that may be of no case, or the largest one where it is larger: what is no decimal digit counts as its hexadecimal value, or as sixteen.
pub fn decimal(field: &[u8]) -> u64 {
    let mut value: u64 = 0;
    for byte in field {
        let next = digit(*byte).unwrap_or(16);
        value = value.saturating_mul(10).saturating_add(u64::from(next));
    }
    value
}

// A hexadecimal digit's value. The library's `to_digit` takes A to F too, which the files do not have.
pub fn digit(byte: u8) -> Result<u8, Difference>
    ensures { IfOk result (λ value. value < 16) }
{
    match byte {
        b'0'..=b'9' => Ok(byte - b'0'),
        b'a'..=b'f' => Ok(byte - b'a' + 10),
        _ => Err(Difference::Unreadable),
    }
}
