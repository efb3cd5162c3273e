//! The call of a command line, read by the call's row in strm_pool's table. It is stored through `call`, so that a call with many
//! bytes is made where it stays.
ghost use Rattle.std.specs.Prelude.{◌≡◌, length, bytes_eq};
ghost use Rattle.strm_script.specs.Cut.{words_behind};
ghost use Rattle.strm_script.specs.Entry.{call_among, call_of, commands, stored};
ghost use Rattle.strm_script.specs.Word.{of_length};

use crate::fault::Kind;
use crate::shape::{four, none, one, three, two};
use strm_pool::{Call, calls};

// Reads the call of the row, if any, that has this first word.
macro_rules! called {
    ($first:ident, $arguments:ident, $call:ident; $(
        $word:literal $name:ident $(($($field:ident),+ $(; $lent:ident)?))?: $act:ident $regs:tt;
    )+) => {{
        $(if is_word($first, $word) {
            return Some(read!($arguments, $call, $name $($($field)+ $($lent)?)?));
        })+
        None
    }};
}

// Whether a first word is that of a row. It is compiled into each row, where the compiler compares with the row's letters.
fn is_word(first: &[u8], word: &[u8]) -> bool
    requires { length first.now ≡ length word.now }
    ensures { result ≡ bytes_eq word.now first.now }
{
    for (letter, wanted) in first.iter().zip(word.iter()) {
        if letter != wanted {
            return false;
        }
    }
    true
}

// Reads a word for each field of a call.
macro_rules! read {
    ($words:ident, $call:ident, $name:ident) => { read!(none($words), $call, () => Call::$name) };
    ($words:ident, $call:ident, $name:ident $a:ident) => { read!(one($words), $call, $a => Call::$name($a)) };
    ($words:ident, $call:ident, $name:ident $a:ident $b:ident) => { read!(two($words), $call, ($a, $b) => Call::$name($a, $b)) };
    ($words:ident, $call:ident, $name:ident $a:ident $b:ident $c:ident) => {
        read!(three($words), $call, ($a, $b, $c) => Call::$name($a, $b, $c))
    };
    ($words:ident, $call:ident, $name:ident $a:ident $b:ident $c:ident $d:ident) => {
        read!(four($words), $call, ($a, $b, $c, $d) => Call::$name($a, $b, $c, $d))
    };
    ($words:expr, $call:ident, $fields:pat => $made:expr) => {
        match $words {
            Ok($fields) => {
                *$call = $made;
                Ok(())
            }
            Err(kind) => Err(kind),
        }
    };
}

// The call of a command of four letters.
fn four_letters(first: &[u8], arguments: Option<&[u8]>, call: &mut Call) -> Option<Result<(), Kind>>
    requires { length first.now ≡ 4 }
    ensures { stored result call.new ≡ call_among (of_length 4 commands) first.now (words_behind arguments.entry) }
{
    calls!(4 called first, arguments, call;)
}

// The call of a command of five letters.
fn five_letters(first: &[u8], arguments: Option<&[u8]>, call: &mut Call) -> Option<Result<(), Kind>>
    requires { length first.now ≡ 5 }
    ensures { stored result call.new ≡ call_among (of_length 5 commands) first.now (words_behind arguments.entry) }
{
    calls!(5 called first, arguments, call;)
}

// The call of a command of six letters.
fn six_letters(first: &[u8], arguments: Option<&[u8]>, call: &mut Call) -> Option<Result<(), Kind>>
    requires { length first.now ≡ 6 }
    ensures { stored result call.new ≡ call_among (of_length 6 commands) first.now (words_behind arguments.entry) }
{
    calls!(6 called first, arguments, call;)
}

// The call of a command of seven letters.
fn seven_letters(
    first: &[u8],
    arguments: Option<&[u8]>,
    call: &mut Call,
) -> Option<Result<(), Kind>>
    requires { length first.now ≡ 7 }
    ensures { stored result call.new ≡ call_among (of_length 7 commands) first.now (words_behind arguments.entry) }
{
    calls!(7 called first, arguments, call;)
}

// The call of a command of eight letters.
fn eight_letters(
    first: &[u8],
    arguments: Option<&[u8]>,
    call: &mut Call,
) -> Option<Result<(), Kind>>
    requires { length first.now ≡ 8 }
    ensures { stored result call.new ≡ call_among (of_length 8 commands) first.now (words_behind arguments.entry) }
{
    calls!(8 called first, arguments, call;)
}

// The call of a command of nine letters.
fn nine_letters(first: &[u8], arguments: Option<&[u8]>, call: &mut Call) -> Option<Result<(), Kind>>
    requires { length first.now ≡ 9 }
    ensures { stored result call.new ≡ call_among (of_length 9 commands) first.now (words_behind arguments.entry) }
{
    calls!(9 called first, arguments, call;)
}

/// Stores the call of the command with this first word, if there is one, made from the text of its arguments, if any. Returns `Shape`
/// if the number of arguments is wrong, otherwise the first fault of the arguments, from the left.
pub fn call_of(first: &[u8], arguments: Option<&[u8]>, call: &mut Call) -> Option<Result<(), Kind>>
    ensures { stored result call.new ≡ call_of first.now (words_behind arguments.entry) }
{
    match first.len() {
        4 => four_letters(first, arguments, call),
        5 => five_letters(first, arguments, call),
        6 => six_letters(first, arguments, call),
        7 => seven_letters(first, arguments, call),
        8 => eight_letters(first, arguments, call),
        9 => nine_letters(first, arguments, call),
        _ => None,
    }
}
