//! Calls that alter one block of a held message: its bytes, its type or its band.
ghost use Rattle.std.specs.Prelude.{Ok, IsTrue};
ghost use Rattle.strm_mblk.specs.Arena.{has};
ghost use Rattle.strm_mblk.specs.BlockCalls as model;
ghost use Rattle.strm_mblk.specs.Calls.{Alters, itself};
ghost use Rattle.strm_mblk.specs.Given.{given_nothing};

use super::finding::Found;
use super::{Blocks, Fields, fields_at};
use crate::token::Token;
use strm_data::{MsgType, Refusal};

impl Blocks {
    /// Writes bytes after the write place of a message's block `place`, and moves the write place after them. Places
    /// count from 0.
    ///
    /// Refused as `NoSuchBlock` if the message has no such block, then as `Shared` if another message block refers to its
    /// data block, then as `NoRoom` if the bytes do not fit. On an error nothing changes. Takes at most `place` steps
    /// and a copy of the bytes. In STREAMS, modules do this by hand (`b_wptr`).
    pub fn write(&mut self, token: &Token, place: u32, bytes: &[u8]) -> Result<(), Refusal>
        requires { IsTrue (has self.old token.now) }
        ensures { Alters itself token.now token.now (model.write token.now.head place bytes.now self.old)
            self.old self.new result }
    {
        let Found {
            node,
            fields,
            capacity,
        } = self.own(token, place)?;
        let end = fields.offset + fields.len;
        if bytes.len() > (capacity - end) as usize {
            return Err(Refusal::NoRoom);
        }
        // The places first: behind a copy of bytes, all fields would have to be stored again.
        let len = fields.len + bytes.len() as u32;
        self.set_fields(node, Fields { len, ..fields });
        self.write_data(fields.data_number, end, bytes);
        Ok(())
    }

    /// Gives the data block of a message's block `place` a type. Places count from 0.
    ///
    /// Refused as `NoSuchBlock` if the message has no such block, then as `Shared` if another message block refers to its
    /// data block. On an error nothing changes. Takes at most `place` steps. In STREAMS, modules do this by hand
    /// (`db_type`).
    pub fn settype(&mut self, token: &Token, place: u32, kind: MsgType) -> Result<(), Refusal>
        requires { IsTrue (has self.old token.now) }
        ensures { Alters itself token.now token.now (model.settype token.now.head place kind self.old)
            self.old self.new result }
    {
        let found = self.own(token, place)?;
        self.data.set_kind(found.fields.data_number, kind);
        Ok(())
    }

    /// Gives a message's first block a band, 0 to 255. All else stays unchanged, the bands of its other blocks too. Takes
    /// constant time. In STREAMS, modules do this by hand (`b_band`).
    pub fn setband(&mut self, token: &Token, band: u8)
        requires { IsTrue (has self.old token.now) }
        ensures { Alters itself token.now token.now (given_nothing (model.setband token.now.head band self.old))
            self.old self.new (Ok tt) }
    {
        let node = token.head();
        let fields = fields_at(&self.chains, node);
        self.set_fields(node, Fields { band, ..fields });
    }
}
