//! How far a text is read as JSON.

ghost use Rattle.std.specs.Prelude.{◌≡◌, IfOk};
ghost use Rattle.std.specs.Str.{chars};
ghost use Rattle.jp_json.specs.Private.Reading.{IsReading};
ghost use Rattle.jp_json.specs.Private.Machine.{moved, top};
ghost use Rattle.jp_json.specs.Private.Reading.{at_end, IsMoved};

use crate::levels::Levels;
use crate::machine::{first_in, may_end, step};
use crate::run::behind_run;
use crate::state::{Level, State, Step};
use jp_reading::split_first;
use std::alloc::{AllocError, Global};

/// Why reading stops.
#[derive(Clone, Copy, Debug, PartialEq, Eq)]
pub(crate) enum Stop {
    /// The text is a JSON text.
    Whole,
    /// It ends too early.
    Unfinished,
    /// No JSON text goes on with the next character.
    Unexpected,
    /// The next character opens a level too many.
    TooDeep,
}

/// How far a text is read.
#[derive(Clone, Copy)]
pub(crate) struct Reading<'t> {
    /// How many bytes are read.
    pub offset: usize,
    /// The text after them.
    pub rest: &'t str,
    /// What comes next there.
    pub state: State,
    /// The innermost level that is open there.
    pub top: Option<Level>,
    pub stop: Stop,
}

/// What a step does to the levels, of which that is the innermost: the state after it and the innermost level, or why
/// there is none.
#[inline(always)]
fn moved(
    levels: &mut Levels,
    innermost: Option<Level>,
    step: Step,
) -> Result<Result<(State, Option<Level>), Stop>, AllocError>
    requires { innermost ≡ top levels.old }
    ensures { IfOk result (λ r. IsMoved levels.old step r levels.new) }
{
    match step {
        Step::Go(state) => Ok(Ok((state, innermost))),
        Step::Open(_) if levels.spare() == 0 => Ok(Err(Stop::TooDeep)),
        Step::Open(level) => {
            levels.open(level)?;
            Ok(Ok((first_in(level), Some(level))))
        }
        Step::Close => match levels.close() {
            Some(_) => Ok(Ok((State::After, levels.top()))),
            None => Ok(Err(Stop::Unexpected)),
        },
        Step::Stuck => Ok(Err(Stop::Unexpected)),
    }
}

/// Why reading stops at a text's end.
fn at_end(top: Option<Level>, state: State) -> Stop
    ensures { result ≡ at_end top state }
{
    if top.is_none() && may_end(state) {
        Stop::Whole
    } else {
        Stop::Unfinished
    }
}

/// Reads a text as far as it goes on to a JSON text of at most `LEVEL_LIMIT` levels.
pub(crate) fn read(alloc: Global, text: &str) -> Result<Reading, AllocError>
    ensures { IfOk result (IsReading (chars text.now)) }
{
    let mut levels = Levels::new(alloc);
    let mut offset = 0;
    let mut rest = text;
    let mut state = State::Value;
    let mut top = None;
    'characters: while let Some((next, after)) = split_first(rest) {
        match moved(&mut levels, top, step(top, state, next))? {
            Ok(then) => (state, top) = then,
            Err(stop) => {
                return Ok(Reading {
                    offset,
                    rest,
                    state,
                    top,
                    stop,
                });
            }
        }
        (state, rest) = behind_run(state, after);
        offset = text.len() - rest.len();
    }
    Ok(Reading {
        offset,
        rest,
        state,
        top,
        stop: at_end(top, state),
    })
}
