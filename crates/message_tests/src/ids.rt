// Ids against values from outside. They were computed in Python: the key by `hashlib.sha256`, the words by
// a block function written from RFC 8439, section 2.3, which gives that standard's vectors of 2.1.1, 2.3.2
// and A.1, and each letter from its word by integer arithmetic.
use ejson_value::Text;
use seed_ids::draw;
use std::alloc::Global;
use std::test::Fail;

// Each row: the seed, the collection, the id's number, and the id.
const IDS: &str = r#""S1-1"|tasks|0|y4piDQHehLAJsG4mX
"S1-1"|tasks|1|wFaMCMJBmQ25LXRms
"S1-1"|tasks|4095|G72DGw2SahGdXQhEA
"S12-7"|players|16|4ph3GzTW73td4iFFf
|tasks|0|XLBLYpn97d3eLG8pW
||0|P5biTMZcK23jKZpfu
"S1-1"|Zażółć 任务|0|sMK7yrREd2fR2PSuH
"S1-1"|Zażółć 任务|4095|THreFxfM8tHH8aJFy
a|bc|0|E88CLGq54vxcHDQsL
ab|c|0|5PNCYKMCK2BiLZi9y
"#;

fn draws(alloc: Global, seed: &str, collection: &str, n: u32, id: &str) -> Result<bool, Fail> {
    let seed = Text::from_str(alloc, seed)?;
    let collection = Text::from_str(alloc, collection)?;
    if n >= 4096 {
        return Ok(false);
    }
    Ok(draw(alloc, &seed, &collection, n)?.as_str() == id)
}

fn is_right(alloc: Global, row: &str) -> Result<bool, Fail> {
    let Some((seed, rest)) = row.split_once("|") else {
        return Ok(false);
    };
    let Some((collection, rest)) = rest.split_once("|") else {
        return Ok(false);
    };
    match rest.split_once("|") {
        None => Ok(false),
        Some((n, id)) => draws(
            alloc,
            seed,
            collection,
            n.parse::<u32>().unwrap_or(4096),
            id,
        ),
    }
}

// The first row that isn't right, or nothing.
pub(crate) fn wrong(alloc: Global) -> Result<&'static str, Fail> {
    for row in IDS.lines() {
        if !is_right(alloc, row)? {
            return Ok(row);
        }
    }
    Ok("")
}
