//! Message types: names, and which have high priority.
ghost use Rattle.std.specs.Prelude.{◌≡◌};
ghost use Rattle.strm_data.specs.MsgType.{all_types, is_high_priority, name_of};

/// The type of a data block. A message has the type of its first block.
///
/// The types are those of the UNIX System V Release 4 Programmer's Guide: STREAMS. The first nine are ordinary, the
/// others high priority. A queue serves a high priority message before every ordinary one, whatever its band. A type also
/// decides which messages a flush of data frees, and which blocks `adjmsg`, `pullupmsg` and `msgdsize` use. Modules and
/// drivers agree on all other uses of a type.
#[derive(Clone, Copy, Debug, PartialEq, Eq)]
pub enum MsgType {
    /// User data.
    MData,
    /// Protocol control information.
    MProto,
    /// Tells a driver to send a break.
    MBreak,
    /// Passes a file pointer.
    MPassfp,
    /// A signal for the stream head, delivered in its place among data.
    MSig,
    /// A delay on output.
    MDelay,
    /// Control information for another module.
    MCtl,
    /// A user's `ioctl` request.
    MIoctl,
    /// Sets options of the stream head.
    MSetopts,
    /// An `ioctl` succeeded.
    MIocack,
    /// An `ioctl` failed.
    MIocnak,
    /// Protocol control information of high priority.
    MPcproto,
    /// A signal for the stream head, delivered before all data.
    MPcsig,
    /// A user reads, and there is no data.
    MRead,
    /// Tells modules, drivers and the stream head to flush their queues.
    MFlush,
    /// Tells a driver to stop output.
    MStop,
    /// Tells a driver to start output again.
    MStart,
    /// The line was hung up.
    MHangup,
    /// An error for the stream head.
    MError,
    /// An `ioctl` needs data from the user.
    MCopyin,
    /// An `ioctl` has data for the user.
    MCopyout,
    /// The result of an `MCopyin` or `MCopyout`.
    MIocdata,
}

// Every type, in order of declaration.
const ALL: [MsgType; 22] = [
    MsgType::MData,
    MsgType::MProto,
    MsgType::MBreak,
    MsgType::MPassfp,
    MsgType::MSig,
    MsgType::MDelay,
    MsgType::MCtl,
    MsgType::MIoctl,
    MsgType::MSetopts,
    MsgType::MIocack,
    MsgType::MIocnak,
    MsgType::MPcproto,
    MsgType::MPcsig,
    MsgType::MRead,
    MsgType::MFlush,
    MsgType::MStop,
    MsgType::MStart,
    MsgType::MHangup,
    MsgType::MError,
    MsgType::MCopyin,
    MsgType::MCopyout,
    MsgType::MIocdata,
];

impl MsgType {
    /// Returns every type, in order of declaration: the ordinary types first.
    pub fn all() -> &'static [MsgType]
        ensures { result.now ≡ all_types }
    {
        &ALL
    }

    /// Says whether messages of this type have high priority, and so go before all bands.
    pub fn is_high_priority(self) -> bool
        ensures { result ≡ is_high_priority self }
    {
        match self {
            MsgType::MData
            | MsgType::MProto
            | MsgType::MBreak
            | MsgType::MPassfp
            | MsgType::MSig
            | MsgType::MDelay
            | MsgType::MCtl
            | MsgType::MIoctl
            | MsgType::MSetopts => false,
            MsgType::MIocack
            | MsgType::MIocnak
            | MsgType::MPcproto
            | MsgType::MPcsig
            | MsgType::MRead
            | MsgType::MFlush
            | MsgType::MStop
            | MsgType::MStart
            | MsgType::MHangup
            | MsgType::MError
            | MsgType::MCopyin
            | MsgType::MCopyout
            | MsgType::MIocdata => true,
        }
    }

    /// Returns the type's name in STREAMS, such as `M_DATA`.
    pub fn name(self) -> &'static str
        ensures { result.now ≡ name_of self }
    {
        match self {
            MsgType::MData => "M_DATA",
            MsgType::MProto => "M_PROTO",
            MsgType::MBreak => "M_BREAK",
            MsgType::MPassfp => "M_PASSFP",
            MsgType::MSig => "M_SIG",
            MsgType::MDelay => "M_DELAY",
            MsgType::MCtl => "M_CTL",
            MsgType::MIoctl => "M_IOCTL",
            MsgType::MSetopts => "M_SETOPTS",
            MsgType::MIocack => "M_IOCACK",
            MsgType::MIocnak => "M_IOCNAK",
            MsgType::MPcproto => "M_PCPROTO",
            MsgType::MPcsig => "M_PCSIG",
            MsgType::MRead => "M_READ",
            MsgType::MFlush => "M_FLUSH",
            MsgType::MStop => "M_STOP",
            MsgType::MStart => "M_START",
            MsgType::MHangup => "M_HANGUP",
            MsgType::MError => "M_ERROR",
            MsgType::MCopyin => "M_COPYIN",
            MsgType::MCopyout => "M_COPYOUT",
            MsgType::MIocdata => "M_IOCDATA",
        }
    }
}
