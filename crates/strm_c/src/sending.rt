//! Law: C may pass handles and readers to another thread.
ghost use Rattle.std.specs.Thread.{IsSend};
ghost use Rattle.strm_c.specs.contracts.handle.StrmPool as handle;
ghost use Rattle.strm_c.specs.contracts.reader.StrmReader as reader;

/// Law: a handle, and a reader, may go to another thread. Does nothing.
pub fn can_be_sent()
    ensures handles { IsSend handle.the_row }
    ensures readers { IsSend reader.the_row }
{}
