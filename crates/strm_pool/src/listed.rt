//! Lists over vectors, for lines, replies and entries.
ghost use Rattle.std.specs.Prelude.{◌≡◌};

use crate::line::{Entry, Line};
use crate::reply::Reply;
use std::marker::Model;

/// A list that is made from a vector and returns it, without allocating.
#[derive(Debug, Drop)]
pub struct Listed<T> {
    vector: Vec<T>,
}

/// The command lines of a worker, in the order in which they are served.
pub type Lines = Listed<Line>;

/// The command lines of each worker: worker 0's, then worker 1's, and so on.
pub type Parts = Listed<Lines>;

/// The replies to a worker, in the order in which its lines were served.
pub type Replies = Listed<Reply>;

/// The replies to each worker: worker 0's, then worker 1's, and so on.
pub type AllReplies = Listed<Replies>;

/// The entries of a trace, in the order in which their calls were served.
pub type TraceEntries = Listed<Entry>;

impl<T> Model for Listed<T> {
    ghost use Rattle.std.specs.Prelude.{List};

    ghost Value = { List T };

    ghost view = { λ l. l.vector.items };
}

impl<T> Listed<T> {
    /// Makes the list of these items.
    pub fn of(vector: Vec<T>) -> Listed<T>
        ensures { result ≡ vector.items }
    {
        Listed { vector }
    }

    /// Returns the items, in order.
    pub fn items(&self) -> &[T]
        ensures { result.now ≡ self.now }
    {
        &self.vector
    }

    /// Returns the vector of the items.
    pub fn into_vec(self) -> Vec<T>
        ensures { result.items ≡ self }
    {
        self.vector
    }
}
