// A transaction, as a caller hands it in.
use std::marker::Model;

// All of a transaction but its data.
#[repr(C)]
#[derive(Clone, Copy)]
pub struct Attributes {
    // The address byte and the code, which are read where the check is on, and not where it is off.
    pub address: u8,
    pub command: u8,
    pub code: u8,
    // The link at that moment.
    pub link_up: bool,
}

// A command with its data, the code over them, and the link at that moment.
#[derive(Drop)]
pub struct Transaction<'a> {
    pub attributes: Attributes,
    pub bytes: &'a [u8],
}

impl<'a> Model for Transaction<'a> {
    ghost use Rattle.record.specs.Transaction.{Transaction, transaction};

    ghost Value = { Transaction };

    ghost view = { λ t. transaction t.attributes t.bytes.now };
}
