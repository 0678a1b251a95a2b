// What the calls on texts tell where they refuse.
ghost use Rattle.smtwriter.specs.Written as smtwriter;
ghost use Rattle.smtreader.specs.Numbers as smtreader;

use crate::refusal::Refusal;
use smtreader::ReadError;
use smtwriter::WriteError;

impl Refusal for WriteError {
    ghost number = { smtwriter.number_of };

    ghost place = { smtwriter.place_of };

    fn number(&self) -> u32 {
        match self {
            WriteError::Fault(_) => 8,
            WriteError::Room => 10,
            WriteError::NoRoot => 31,
            WriteError::Short => 32,
        }
    }

    fn place(&self) -> usize {
        match *self {
            WriteError::Fault(i) => i,
            WriteError::Room | WriteError::NoRoot | WriteError::Short => 0,
        }
    }
}

impl Refusal for ReadError {
    ghost number = { smtreader.number_of };

    ghost place = { smtreader.place_of };

    fn number(&self) -> u32 {
        match self {
            ReadError::Stop(_) => 41,
            ReadError::Room => 6,
        }
    }

    fn place(&self) -> usize {
        match *self {
            ReadError::Stop(p) => p,
            ReadError::Room => 0,
        }
    }
}
