//! From answers of the named pool to what calls of C return and store.
ghost use Rattle.std.specs.Prelude.{◌≡◌, Ok};
ghost use Rattle.strm_c.specs.Codes.{any_or_nothing, number_returned, answer_of_result, answer_of_refusable, value_written};
ghost use Rattle.strm_c.specs.InC.{both};

use crate::code::Code;
use strm_named::{Fault, Name};
use strm_pool::Refusal;

// The name of no message.
const NO_NAME: Name = Name {
    pool: 0,
    head: 0,
    stamp: 0,
};

// An answer with a code for its fault.
pub(crate) fn coded<T>(answer: Result<T, Fault>) -> Result<T, Code>
    ensures { result ≡ answer_of_result Ok answer }
{
    answer.map_err(Code::of)
}

// An answer that may be none, which is the code `Nothing`.
pub(crate) fn coded_any<T>(answer: Result<Option<T>, Fault>) -> Result<T, Code>
    ensures { result ≡ answer_of_result any_or_nothing answer }
{
    match answer {
        Ok(given) => present(given),
        Err(fault) => Err(Code::of(fault)),
    }
}

// An answer of one message, and perhaps a second; if not, the second name is that of no message.
pub(crate) fn coded_both(answer: Result<(Name, Option<Name>), Fault>) -> Result<(Name, Name), Code>
    ensures { result ≡ answer_of_result both answer }
{
    match answer {
        Ok((first, second)) => Ok((first, second.unwrap_or(NO_NAME))),
        Err(fault) => Err(Code::of(fault)),
    }
}

// An answer to a call without names, with a code for its refusal.
pub(crate) fn coded_refusal<T>(answer: Result<T, Refusal>) -> Result<T, Code>
    ensures { result ≡ answer_of_refusable Ok answer }
{
    answer.map_err(Code::Refused)
}

// An answer to a call without names that may be none, which is the code `Nothing`.
pub(crate) fn coded_any_refusal<T>(answer: Result<Option<T>, Refusal>) -> Result<T, Code>
    ensures { result ≡ answer_of_refusable any_or_nothing answer }
{
    match answer {
        Ok(given) => present(given),
        Err(why) => Err(Code::Refused(why)),
    }
}

// The value, if any; otherwise the code `Nothing`.
pub(crate) fn present<T>(given: Option<T>) -> Result<T, Code>
    ensures { result ≡ any_or_nothing given }
{
    given.ok_or(Code::Nothing)
}

// Stores the answer's value through a pointer of C and returns 0; or returns the code and stores nothing.
pub(crate) fn put<T: Copy>(answer: Result<T, Code>, into: &mut T) -> i32
    ensures number { result ≡ number_returned answer }
    ensures into { into.new ≡ value_written into.old answer }
{
    match answer {
        Ok(given) => {
            *into = given;
            0
        }
        Err(code) => code.number(),
    }
}

// What a call returns that stores nothing: 0, or the code.
pub(crate) fn number(answer: Result<(), Code>) -> i32
    ensures { result ≡ number_returned answer }
{
    put(answer, &mut ())
}
