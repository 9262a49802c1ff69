// The cases of the status block.
use crate::case::{Answer, Case};
use crate::text::encode_field;
use status::Fields;

pub(crate) fn write(case: &Case) -> Answer {
    let [
        length,
        vlan,
        decision_match,
        decision_index,
        vlan_match,
        vlan_index,
    ] = case.fields::<6>()?;
    let written = status::write(Fields {
        length: length.number()?,
        vlan: vlan.number()?,
        decision_match: decision_match.flag()?,
        decision_index: decision_index.number()?,
        vlan_match: vlan_match.flag()?,
        vlan_index: vlan_index.number()?,
    });
    let answer = status::number(&written);
    let field = status::bad_field_number(&written);
    let block = written.unwrap_or_default();
    let block = encode_field(case.alloc, &block)?;
    Ok(format!(in case.alloc; "{answer:02x} {field:02x} {block}")?)
}

pub(crate) fn read(case: &Case) -> Answer {
    let [block] = case.fields::<1>()?;
    let read = status::read(block.bytes());
    let answer = status::number(&read);
    let field = status::bad_field_number(&read);
    let found = read.unwrap_or_default();
    Ok(format!(in case.alloc;
        "{answer:02x} {field:02x} {:04x} {:04x} {:02x} {:02x} {:02x} {:02x}",
        found.length,
        found.vlan,
        u8::from(found.decision_match),
        found.decision_index,
        u8::from(found.vlan_match),
        found.vlan_index,
    )?)
}
