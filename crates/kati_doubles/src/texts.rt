//! What tests compare: values told as texts.
use kt_eval::Stop;
use kt_list::Sequence;
use kt_testing::put;

/// Puts messages, each on a line.
pub fn put_messages(told: &mut Vec<u8>, messages: &[Sequence<u8>]) {
    for message in messages {
        put(told, message.as_slice());
        put(told, b"\n");
    }
}

/// Puts what stopped an evaluation: the line of a fault, or what a device's failure is told by.
pub fn put_stop(told: &mut Vec<u8>, stop: &Stop) {
    match stop {
        Stop::Fault(fault) => {
            let _refused = fault.append_to(told);
        }
        Stop::Device(name) => {
            put(told, b"cannot read ");
            put(told, name.as_bytes());
        }
        Stop::Memory => put(told, b"no memory"),
    }
}
