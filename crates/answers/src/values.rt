// What the calls on images and on lists of nodes tell where they refuse.
ghost use Rattle.image.specs.Answers as image;
ghost use Rattle.sorts.specs.Check as sorts;
ghost use Rattle.evaluator.specs.Outcome as evaluator;

use crate::refusal::Refusal;
use evaluator::EvalError;
use image::ImageError;
use sorts::CheckError;

impl Refusal for ImageError {
    ghost number = { image.number_of };

    ghost place = { image.node_of };

    fn number(&self) -> u32 {
        match self {
            ImageError::TooWide => 9,
            ImageError::Short => 10,
        }
    }

    fn place(&self) -> usize {
        0
    }
}

impl Refusal for CheckError {
    ghost number = { sorts.number_of };

    ghost place = { sorts.node_of };

    fn number(&self) -> u32 {
        match self {
            CheckError::Fault(_) => 8,
            CheckError::Room => 10,
        }
    }

    fn place(&self) -> usize {
        match *self {
            CheckError::Fault(i) => i,
            CheckError::Room => 0,
        }
    }
}

impl Refusal for EvalError {
    ghost number = { evaluator.number_of };

    ghost place = { evaluator.node_of };

    fn number(&self) -> u32 {
        match self {
            EvalError::Fault(_) => 8,
            EvalError::TooWide(_) => 9,
            EvalError::Room => 10,
        }
    }

    fn place(&self) -> usize {
        match *self {
            EvalError::Fault(i) | EvalError::TooWide(i) => i,
            EvalError::Room => 0,
        }
    }
}
