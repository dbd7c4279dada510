//! The limits on an input, and the message where one is passed.
use commands::{INPUT_LIMIT, LINE_LIMIT, Status};

#[test]
fn limits(rt: HostRuntime) {
    let message = Status::TooLong.message();
    assert!(rt; INPUT_LIMIT == 67108864 && message.contains("67108864"));
    assert!(rt; LINE_LIMIT == 1048576 && message.contains("1048576"));
}
