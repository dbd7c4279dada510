//! What is no selector, no test and no modifier, with the number of the fault; and the ids that selectors name. A run tells
//! only that it is refused.
use crate::values::{halves, split, value};
use ejson_value::Value;
use modifier_apply::{Modifier, ModifierFault};
use selector_match::{Selector, SelectorFault, Test};
use std::alloc::Global;
use std::test::Fail;

// Each row: `selector`, `test` or `modifier` and a value, ` => `, and the number of the fault; or `id` and a selector, and
// the id that it names, if it names one.
const ROWS: &str = r#"selector [] => 1
selector {"$or":[1]} => 1
selector {"$and":[{"$type":"point","$value":{}}]} => 1
selector {"$type":"point","$value":{}} => 1
selector {"a":{"$mod":[2,0]}} => 2
selector {"$where":1} => 2
selector {"a":{"$elemMatch":{"$and":[{"b":1}]}}} => 2
selector {"a":{"$elemMatch":{"$foo":1,"b":2}}} => 2
selector {"a":{"$elemMatch":{"$and":[],"b":2}}} => 3
selector {"$and":[]} => 3
selector {"a..b":1} => 3
selector {"a.a.a.a.a.a.a.a.a.a.a.a.a.a.a.a.a.a.a.a.a.a.a.a.a.a.a.a.a.a.a.a":1} => read
selector {"a.a.a.a.a.a.a.a.a.a.a.a.a.a.a.a.a.a.a.a.a.a.a.a.a.a.a.a.a.a.a.a.a":1} => 3
selector {"a":{"$gt":1,"x":2}} => 3
selector {"a":{"$gt":null}} => 3
selector {"a":{"$size":-1}} => 3
selector {"a":{"$in":1}} => 3
selector {"a":{"$all":[{"$gt":1}]}} => 3
selector {"a":{"$exists":1}} => 3
selector {"a":{"$not":3}} => 3
selector {"a":{"$not":{}}} => 3
selector {"a":{"$elemMatch":3}} => 3
selector {"$and":1,"$what":1} => 3
selector {"u":{"$gt":{"$type":"point","$value":1}}} => 3
selector {"u":{"$gte":{"$type":"point","$value":1}}} => 3
selector {"u":{"$lt":{"$type":"point","$value":1}}} => 3
selector {"u":{"$lte":{"$type":"point","$value":1}}} => 3
selector {"u":{"$in":{"$type":"point","$value":[1]}}} => 3
selector {"u":{"$all":{"$type":"point","$value":[1]}}} => 3
selector {"u":{"$exists":{"$type":"point","$value":true}}} => 3
selector {"u":{"$size":{"$type":"point","$value":1}}} => 3
selector {"u":{"$not":{"$type":"point","$value":1}}} => 3
selector {"u":{"$elemMatch":{"$type":"point","$value":{}}}} => 3
selector {"$and":{"$type":"point","$value":[{}]}} => 3
test 3 => 1
test {"$type":"point","$value":{}} => 1
test {"$or":[]} => 2
test {"a":1,"$foo":[{}]} => 2
modifier [] => 1
modifier "x" => 1
modifier {"$type":"T","$value":{}} => 1
modifier {"$foo":{"a":1}} => 2
modifier {"$pull":{"a":{"$foo":1}}} => 2
modifier {"$pull":{"a":{"$foo":1,"x":1}}} => 2
modifier {"$set":{"a":1},"b":1} => 3
modifier {"$foo":{},"b":1} => 3
modifier {"$set":5} => 3
modifier {"$inc":{"a":"1"}} => 3
modifier {"$pop":{"a":2}} => 3
modifier {"$set":{"a..b":1}} => 3
modifier {"$set":{"$a":1}} => 3
modifier {"$set":{"a.$b":1}} => 3
modifier {"$push":{"a":{"$each":1}}} => 3
modifier {"$push":{"a":{"$each":[1],"b":2}}} => 3
modifier {"$addToSet":{"a":{"$in":[1]}}} => 3
modifier {"$inc":{"a":null},"$what":{}} => 3
modifier {"$inc":{"a":{"$type":"T","$value":1}}} => 3
modifier {"$set":{"$type":"T","$value":{"a":1}}} => 3
id {"_id":"a"} => a
id {"_id":{"$gt":"0","$eq":"b"},"n":1} => b
id {"_id":1} => none
id {"n":"a"} => none
id {"$or":[{"_id":"a"}]} => none
id {"_id":{"$in":["a"]}} => none
id {"_id":{"$type":"point","$value":"a"}} => none
"#;

fn selector_number(fault: SelectorFault) -> &'static str {
    match fault {
        SelectorFault::NotObject => "1",
        SelectorFault::UnknownOperator => "2",
        SelectorFault::BadOperand => "3",
        SelectorFault::Memory => "memory",
    }
}

fn modifier_number(fault: ModifierFault) -> &'static str {
    match fault {
        ModifierFault::NotObject => "1",
        ModifierFault::UnknownOperator => "2",
        ModifierFault::BadOperand => "3",
        ModifierFault::Memory => "memory",
    }
}

fn selector_fault(alloc: Global, selector: &Value) -> &'static str {
    match Selector::read(alloc, selector) {
        Ok(_) => "read",
        Err(fault) => selector_number(fault),
    }
}

fn test_fault(alloc: Global, test: &Value) -> &'static str {
    match Test::read(alloc, test) {
        Ok(_) => "read",
        Err(fault) => selector_number(fault),
    }
}

fn modifier_fault(alloc: Global, modifier: &Value) -> &'static str {
    match Modifier::read(alloc, modifier) {
        Ok(_) => "read",
        Err(fault) => modifier_number(fault),
    }
}

fn names(alloc: Global, selector: &Value, wanted: &str) -> bool {
    match Selector::read(alloc, selector) {
        Ok(read) => match read.named_id() {
            Some(id) => id.as_str() == wanted,
            None => wanted == "none",
        },
        Err(_) => false,
    }
}

fn is_right(alloc: Global, row: &str) -> Result<bool, Fail> {
    let (given, wanted) = halves(row);
    let (kind, written) = split(given);
    let value = value(alloc, written)?;
    match kind {
        "selector" => Ok(selector_fault(alloc, &value) == wanted),
        "test" => Ok(test_fault(alloc, &value) == wanted),
        "modifier" => Ok(modifier_fault(alloc, &value) == wanted),
        _ => Ok(names(alloc, &value, wanted)),
    }
}

#[test]
fn rows(rt: HostRuntime) -> Result<(), Fail> {
    for row in ROWS.lines() {
        assert!(rt; is_right(rt.alloc(), row)?, "at {row}");
    }
    Ok(())
}
