// The cases of transactions, on what is carried from one case to the next.
use crate::case::{Answer, Case, CaseError};
use crate::digest::Digest;
use crate::field::Field;
use crate::states::bytes_of;
use crate::store;
use crate::store::short_pattern;
use crate::text::{encode_field, flag};
use outcome::Reply;
use record::{Attributes, Transaction};
use state::{Account, Beside, State};
use std::alloc::Global;

const MAX_SETTINGS: usize = 64;

#[derive(Drop)]
pub(crate) struct Carried {
    state: State,
    store: Vec<u8>,
    settings: Vec<u8>,
}

impl Carried {
    pub(crate) fn new(alloc: Global) -> Carried {
        let beside = Beside {
            open_fragments: 0,
            open_bytes: 0,
            taken: 0,
            refused: 0,
            total: 0,
        };
        let account = Account {
            grid: [0; state::CELLS],
            beside,
        };
        Carried {
            state: State {
                account,
                maximum: 0,
                check: 0,
            },
            store: Vec::new(alloc),
            settings: Vec::new(alloc),
        }
    }

    pub(crate) fn start(&mut self, case: &Case) -> Answer {
        let [state, size, seed, settings] = case.fields::<4>()?;
        let state = state.state()?;
        let store = short_pattern(case.alloc, size.number()?, seed.number()?)?;
        let settings = settings.bytes();
        if settings.len() > MAX_SETTINGS {
            return Err(CaseError::NotACase);
        }
        self.state = state;
        self.store = store;
        self.settings = Vec::from_slice(case.alloc, settings)?;
        flag(case.alloc, state::is_sound(state))
    }

    pub(crate) fn send(&mut self, case: &Case) -> Answer {
        let [command, link_up, data] = case.fields::<3>()?;
        let transaction = Transaction {
            attributes: uncoded(command, link_up)?,
            bytes: data.bytes(),
        };
        self.transact(case.alloc, transaction)
    }

    pub(crate) fn send_pattern(&mut self, case: &Case) -> Answer {
        let [command, link_up, size, seed] = case.fields::<4>()?;
        let bytes = short_pattern(case.alloc, size.number()?, seed.number()?)?;
        let transaction = Transaction {
            attributes: uncoded(command, link_up)?,
            bytes: &bytes,
        };
        self.transact(case.alloc, transaction)
    }

    pub(crate) fn send_coded(&mut self, case: &Case) -> Answer {
        let [address, command, link_up, data, code] = case.fields::<5>()?;
        let transaction = Transaction {
            attributes: coded(address, command, link_up, code)?,
            bytes: data.bytes(),
        };
        self.transact(case.alloc, transaction)
    }

    pub(crate) fn send_coded_pattern(&mut self, case: &Case) -> Answer {
        let [address, command, link_up, size, seed, code] = case.fields::<6>()?;
        let bytes = short_pattern(case.alloc, size.number()?, seed.number()?)?;
        let transaction = Transaction {
            attributes: coded(address, command, link_up, code)?,
            bytes: &bytes,
        };
        self.transact(case.alloc, transaction)
    }

    fn transact(&mut self, alloc: Global, transaction: Transaction) -> Answer {
        let transacted = translator::transact(
            self.state,
            &mut self.store,
            &mut self.settings,
            transaction,
        );
        self.state = transacted.state;
        let reply = Reply::from(transacted.outcome);
        let state = bytes_of(alloc, self.state)?;
        Ok(format!(in alloc;
            "{:02x} {:04x} {:08x} {:08x} {:08x}",
            reply.answer,
            reply.sent,
            Digest::of(&state),
            Digest::of(&self.store),
            Digest::of(&self.settings),
        )?)
    }

    pub(crate) fn show(&self, case: &Case) -> Answer {
        case.fields::<0>()?;
        let bytes = bytes_of(case.alloc, self.state)?;
        let state = encode_field(case.alloc, &bytes)?;
        let settings = encode_field(case.alloc, &self.settings)?;
        Ok(format!(in case.alloc; "{state} {settings}")?)
    }

    pub(crate) fn packet(&self, case: &Case) -> Answer {
        let [length] = case.fields::<1>()?;
        store::show(case.alloc, &self.store, length.number()?)
    }
}

fn uncoded(command: &Field, link_up: &Field) -> Result<Attributes, CaseError> {
    Ok(Attributes {
        address: 0,
        command: command.number()?,
        code: 0,
        link_up: link_up.flag()?,
    })
}

fn coded(
    address: &Field,
    command: &Field,
    link_up: &Field,
    code: &Field,
) -> Result<Attributes, CaseError> {
    Ok(Attributes {
        address: address.number()?,
        command: command.number()?,
        code: code.number()?,
        link_up: link_up.flag()?,
    })
}
