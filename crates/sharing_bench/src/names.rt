// What the arguments can name: a kind of bank, and a way to load a store.
use crate::setups::Setup;
use std::str::FromStr;

#[derive(Clone, Copy, Debug, PartialEq, Eq)]
pub(crate) enum BankKind {
    Plain,
    Coded,
    TwoChip,
}

// A name of neither.
#[derive(Clone, Copy, Debug, PartialEq, Eq)]
pub(crate) struct UnknownName;

impl FromStr for BankKind {
    type Err = UnknownName;

    fn from_str(name: &str) -> Result<BankKind, UnknownName> {
        match name {
            "plain" => Ok(BankKind::Plain),
            "coded" => Ok(BankKind::Coded),
            "two_chips" => Ok(BankKind::TwoChip),
            _ => Err(UnknownName),
        }
    }
}

impl FromStr for Setup {
    type Err = UnknownName;

    fn from_str(name: &str) -> Result<Setup, UnknownName> {
        match name {
            "bare" => Ok(Setup::Bare),
            "mission" => Ok(Setup::Mission),
            "chain" => Ok(Setup::Chain),
            "controls" => Ok(Setup::Controls),
            "parts" => Ok(Setup::Parts),
            _ => Err(UnknownName),
        }
    }
}
