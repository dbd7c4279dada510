//! The forms of an object in EJSON.
ghost use Rattle.std.specs.Prelude.{◌≡◌};
ghost use Rattle.serde_json.specs.View.{members_view};
ghost use Rattle.ejson_codec.specs.Shape.{keys_of_members, shape_of, shape_of_one, shape_of_two};

use serde_json::{Map, Value as Json};

/// What an object stands for, by the exact set of its keys.
#[derive(Clone, Copy)]
pub(crate) enum Shape {
    Plain,
    Date,
    Binary,
    Escape,
    User,
    Unsupported,
}

// What an object of this one key stands for.
fn of_one(key: &str) -> Shape
    ensures { result ≡ shape_of_one key.now }
{
    match key {
        "$date" => Shape::Date,
        "$binary" => Shape::Binary,
        "$escape" => Shape::Escape,
        "$InfNaN" => Shape::Unsupported,
        _ => Shape::Plain,
    }
}

// What an object of these two keys stands for.
fn of_two(first: &str, second: &str) -> Shape
    ensures { result ≡ shape_of_two first.now second.now }
{
    match (first, second) {
        ("$flags", "$regexp") => Shape::Unsupported,
        ("$type", "$value") => Shape::User,
        _ => Shape::Plain,
    }
}

// What an object stands for.
pub(crate) fn of_members(members: &Map<String, Json>) -> Shape
    ensures { result ≡ shape_of (keys_of_members (members_view members.now.entries)) }
{
    let mut keys = members.keys();
    let Some(first) = keys.next() else {
        return Shape::Plain;
    };
    let Some(second) = keys.next() else {
        return of_one(first.as_str());
    };
    let None = keys.next() else {
        return Shape::Plain;
    };
    of_two(first.as_str(), second.as_str())
}
