// What the arguments can name: a kind of bank, and a kind of work.
use std::str::FromStr;

#[derive(Clone, Copy, Debug, PartialEq, Eq)]
pub(crate) enum BankKind {
    Plain,
    Coded,
    TwoChip,
}

#[derive(Clone, Copy, Debug, PartialEq, Eq)]
pub(crate) enum Work {
    Copy,
    CopyEnv,
    Null,
    Restrict,
    Amplify,
    // Of how many bytes.
    Read(usize),
    Write(usize),
    See,
    Look,
    CallReturn,
    CallCreateReturn,
    CallTypedReturn,
    CallRefineReturn,
    Fault,
}

// A name of neither.
#[derive(Clone, Copy, Debug, PartialEq, Eq)]
pub(crate) struct UnknownName;

impl FromStr for BankKind {
    type Err = UnknownName;

    fn from_str(name: &str) -> Result<BankKind, UnknownName> {
        match name {
            "plain" => Ok(BankKind::Plain),
            "coded" => Ok(BankKind::Coded),
            "two_chips" => Ok(BankKind::TwoChip),
            _ => Err(UnknownName),
        }
    }
}

impl FromStr for Work {
    type Err = UnknownName;

    fn from_str(name: &str) -> Result<Work, UnknownName> {
        match name {
            "copy" => Ok(Work::Copy),
            "copy_env" => Ok(Work::CopyEnv),
            "null" => Ok(Work::Null),
            "restrict" => Ok(Work::Restrict),
            "amplify" => Ok(Work::Amplify),
            "read1" => Ok(Work::Read(1)),
            "read64" => Ok(Work::Read(64)),
            "read1024" => Ok(Work::Read(1024)),
            "write1" => Ok(Work::Write(1)),
            "write64" => Ok(Work::Write(64)),
            "write1024" => Ok(Work::Write(1024)),
            "see" => Ok(Work::See),
            "look" => Ok(Work::Look),
            "call_return" => Ok(Work::CallReturn),
            "call_create_return" => Ok(Work::CallCreateReturn),
            "call_typed_return" => Ok(Work::CallTypedReturn),
            "call_refine_return" => Ok(Work::CallRefineReturn),
            "fault" => Ok(Work::Fault),
            _ => Err(UnknownName),
        }
    }
}
