//! What the tests compare: answers as texts.
use kt_rules::{NeededNames, NeedsView, Place, RuleFault};
use kt_testing::put;
use std::alloc::Global;

pub(crate) fn put_place(told: &mut Vec<u8>, place: &Place) {
    let _refused = place.append_to(told);
    put(told, b" ");
}

/// Names, a comma after each.
fn put_names(alloc: Global, told: &mut Vec<u8>, names: NeededNames) {
    for name in names {
        match name.text(alloc) {
            Ok(text) => put(told, text.as_slice()),
            Err(_refused) => put(told, b"memory"),
        }
        put(told, b",");
    }
}

/// Prerequisites, and after a bar the order-only ones.
pub(crate) fn put_needs(alloc: Global, told: &mut Vec<u8>, needs: NeedsView) {
    put_names(alloc, told, needs.prerequisites());
    put(told, b"|");
    put_names(alloc, told, needs.order_only());
}

/// A fault as a line.
pub(crate) fn put_fault(told: &mut Vec<u8>, fault: &RuleFault) {
    match fault {
        RuleFault::Memory => put(told, b"memory"),
        RuleFault::Refused {
            number,
            place,
            words,
        } => {
            put_place(told, place);
            put(told, &[b'0' + number / 10 % 10, b'0' + number % 10, b' ']);
            put(told, words.as_slice());
        }
    }
}
