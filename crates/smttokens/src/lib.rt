// One token of SMT-LIB text: which of the choices of the grammar stands at the front, or the first byte from which none can follow.
#![tactic(auto)]

mod guesses;
mod matching;
mod texts;

ghost use Rattle.std.specs.Prelude.{◌≡◌, ◌<◌};
ghost use Rattle.smtgrammar.specs.Allowed.{ok_at};
ghost use Rattle.smtgrammar.specs.Tokens.{text_at};
ghost use Rattle.smtgrammar.specs.Grammar.{size_at, Choice};
ghost use Rattle.smtchoices.specs.Seen.{seen};
ghost use Rattle.smttokens.specs.Taken.{state, Tried, Right, Takes};

use smtchoices::State;
use smtgrammar::{LIMIT, stage};

// A choice, and how many bytes its text has.
#[derive(Clone, Copy)]
pub struct Token {
    pub choice: usize,
    pub length: usize,
}

// How many choices a stage has.
#[tactic(auto, unfolding(smtgrammar::specs::Grammar::size_at))]
pub fn size_at(stage: usize) -> usize
    ensures { result ≡ size_at stage }
{
    match stage {
        stage::LINE => 3,
        stage::DECLARED | stage::NUMBER | stage::DEFINED => LIMIT,
        stage::KIND => 27,
        stage::DIGIT => 11,
        stage::WIDTH => 81,
        stage::SORT => 3905,
        stage::OPENING => 28,
        stage::FIRST => 65539,
        stage::OPERAND_0..=stage::OPERAND_2 => 65536,
        stage::PLACES => 80,
        stage::BIT => 2,
        _ => 1,
    }
}

// One choice: how many bytes its text has, where it is allowed and all of it is there; else how far the texts reach so far.
fn tried(x: &[u8], s: &State, v: usize, far: usize) -> Result<usize, usize>
    requires { v < size_at s.now.line.stage }
    ensures { Tried (ok_at (seen s.now.tables) s.now.place s.now.line v) (text_at (seen s.now.tables) s.now.place s.now.line v) x.now far result }
{
    if !smtchoices::ok_at(s, v) {
        return Err(far);
    }
    match texts::text_at(x, s, v) {
        Ok(n) => Ok(n),
        Err(f) => Err(far.max(f)),
    }
}

// All choices, one after the other, up to one that is there.
fn seek(x: &[u8], s: &State, n: usize) -> Result<Token, usize>
    requires { n ≡ size_at s.now.line.stage }
    ensures { Right (Choice (state (seen s.now.tables) s.now.place s.now.line)) x.now result }
{
    let mut far = 0;
    for choice in 0..n {
        match tried(x, s, choice, far) {
            Ok(length) => return Ok(Token { choice, length }),
            Err(f) => far = f,
        }
    }
    Err(far)
}

// The token at the front, or the place from which none can follow: the guessed choice at once, and a search only where that is not there.
pub fn take(x: &[u8], s: &State) -> Result<Token, usize>
    ensures { Takes s.now x.now result }
{
    let n = size_at(s.line.stage);
    let choice = guesses::guess(x, &s.line);
    if choice < n
        && let Ok(length) = tried(x, s, choice, 0)
    {
        return Ok(Token { choice, length });
    }
    seek(x, s, n)
}
