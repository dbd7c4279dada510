//! A queue of messages, call by call.
use ddp_messages::FromClient;
use ejson_value::Text;
use method_queue::{MethodQueue, PushFault};
use std::alloc::Global;
use std::test::Fail;

// Each row: a call on a queue of at most 2 messages, and its answer. `push` has the message's id and its bytes.
pub(crate) const METHODS: &str = "peek => -
next => -
push a 20 => ok
push b 20 => ok
push c 20 => full
peek => a
next => a
reserve => ok
start 0 => ok
peek => -
next => -
unblock 1 => false
unblock 0 => true
unblock 0 => false
peek => b
next => b
start 1 => ok
push c 20 => ok
end 0 => true
end 0 => false
next => -
end 1 => true
unblock 1 => false
next => c
next => -
";

pub(crate) const BYTES: &str = "push a 4194305 => full
push a 4294967295 => full
push a 4194304 => ok
push b 1 => full
push b 0 => ok
next => a
push c 4194304 => ok
next => b
push d 1 => full
next => c
push d 4194303 => ok
push e 1 => ok
";

fn id_of(message: &FromClient) -> &str {
    match message {
        FromClient::Unsub { id } => id.as_str(),
        _ => "",
    }
}

fn pushes(
    queue: &mut MethodQueue,
    message: FromClient,
    bytes: u32,
    id: &str,
    wanted: &str,
) -> bool {
    match queue.push(message, bytes) {
        Ok(()) => wanted == "ok",
        Err((message, fault)) => {
            wanted == "full" && fault == PushFault::Full { limit: 2 } && id_of(&message) == id
        }
    }
}

fn gives(message: Option<&FromClient>, wanted: &str) -> bool {
    match message {
        Some(message) => id_of(message) == wanted,
        None => wanted == "-",
    }
}

fn takes(queue: &mut MethodQueue, wanted: &str) -> bool {
    gives(queue.next().as_ref(), wanted)
}

fn push_is_right(
    alloc: Global,
    queue: &mut MethodQueue,
    message: &str,
    wanted: &str,
) -> Result<bool, Fail> {
    let Some((id, bytes)) = message.split_once(" ") else {
        return Ok(false);
    };
    let bytes = bytes.parse::<u32>()?;
    let message = FromClient::Unsub {
        id: Text::from_str(alloc, id)?,
    };
    Ok(pushes(queue, message, bytes, id, wanted))
}

// A call that takes a method's number.
fn method_is_right(
    queue: &mut MethodQueue,
    call: &str,
    k: u64,
    wanted: &str,
) -> Result<bool, Fail> {
    let answer = match call {
        "start" => {
            queue.start(k)?;
            return Ok(wanted == "ok");
        }
        "unblock" => queue.unblock(k),
        _ => queue.end(k),
    };
    Ok(wanted == if answer { "true" } else { "false" })
}

fn is_right(alloc: Global, queue: &mut MethodQueue, row: &str) -> Result<bool, Fail> {
    let Some((call, wanted)) = row.split_once(" => ") else {
        return Ok(false);
    };
    match call {
        "next" => return Ok(takes(queue, wanted)),
        "peek" => return Ok(gives(queue.peek(), wanted)),
        "reserve" => return Ok(queue.reserve().is_ok()),
        _ => {}
    }
    let Some((name, rest)) = call.split_once(" ") else {
        return Ok(false);
    };
    if name == "push" {
        return push_is_right(alloc, queue, rest, wanted);
    }
    let k = rest.parse::<u64>()?;
    method_is_right(queue, name, k, wanted)
}

fn wrong_row(
    alloc: Global,
    queue: &mut MethodQueue,
    rows: &'static str,
) -> Result<&'static str, Fail> {
    for row in rows.lines() {
        if !is_right(alloc, queue, row)? {
            return Ok(row);
        }
    }
    Ok("")
}

// The first row that isn't right, or nothing.
pub(crate) fn wrong(alloc: Global, rows: &'static str) -> Result<&'static str, Fail> {
    let mut queue = MethodQueue::new(alloc, 2);
    wrong_row(alloc, &mut queue, rows)
}
